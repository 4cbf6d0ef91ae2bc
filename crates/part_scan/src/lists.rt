//! Rows in lists.
//!
//! 1. One after the other the lists are the rows of the view in order; where one ends is no matter for the result.

ghost use Rattle.std.specs.Prelude.{◌≡◌, ◌<◌, length, IfOk};
ghost use Rattle.part_scan.specs.Parts.{rows_in};

use graph_model::{NoMemory, Row};
use items::Items;
use std::alloc::Global;

/// Rows that one reader gave.
pub type RowList = Items<Row>;

/// The lists of all readers, in the order of their rows.
pub type RowLists = Items<RowList>;

/// Rows in so many lists, one after the other and of about one length.
pub fn cut_rows(alloc: Global, rows: &[Row], parts: u32) -> Result<RowLists, NoMemory>
    requires { 0 < parts }
    ensures count { IfOk result (λ lists. length lists ≡ parts) }
    ensures rows { IfOk result (λ lists. rows_in lists ≡ rows.now) }
{
    let size = rows.len() / parts as usize;
    let mut lists = RowLists::new(alloc);
    let mut start = 0;
    'parts: for _part in 1..parts {
        let end = start + size.min(rows.len() - start);
        lists.push(list_of(alloc, &rows[start..end])?)?;
        start = end;
    }
    lists.push(list_of(alloc, &rows[start..])?)?;
    Ok(lists)
}

/// A list of rows.
fn list_of(alloc: Global, rows: &[Row]) -> Result<RowList, NoMemory>
    ensures { IfOk result (λ list. list ≡ rows.now) }
{
    let rows = Vec::from_slice(alloc, rows)?;
    Ok(RowList::from_vec(rows))
}
