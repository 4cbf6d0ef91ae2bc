//! All rows that an open transaction sees, in one list.
//!
//! 1. A worker reads so that has no readers, portion after portion, as any scan does.

ghost use Rattle.std.specs.Prelude.{◌≡◌, ◌≤◌, ◌<◌, ◌∷◌, [], IfOk, length};
ghost use Rattle.graph_model.specs.Rows.{all_rows};
ghost use Rattle.part_scan.specs.Parts.{rows_in};
ghost use Rattle.reader_parts.specs.SharedStore.Passes.{IsOpen, KeepsOpen, view_in};

use crate::scan_place::ScanPlace;
use crate::scans::scan_step;
use graph_model::{Cursor, Key, NoMemory, Row, Rows64};
use part_scan::{RowList, RowLists};
use reader_parts::below::{Pass, Store};
use std::alloc::Global;
use std::sync::Wait;

/// Reads all of them without a reader. May wait.
pub fn read_alone(rt: &impl Wait, store: &Store, pass: &mut Pass) -> Result<RowLists, NoMemory>
    requires opened { IsOpen store.now pass.old }
    ensures kept { KeepsOpen store.now pass.old pass.new }
    ensures one { IfOk result (λ lists. length lists ≡ 1) }
    ensures rows { IfOk result (λ lists. rows_in lists ≡ all_rows (view_in store.now pass.old)) }
{
    let alloc = pass.alloc;
    let rows = read_rows(rt, store, pass, alloc)?;
    list_of(alloc, rows)
}

/// The rows, in their order.
fn read_rows(
    rt: &impl Wait,
    store: &Store,
    pass: &mut Pass,
    alloc: Global,
) -> Result<Vec<Row>, NoMemory>
    requires opened { IsOpen store.now pass.old }
    ensures kept { KeepsOpen store.now pass.old pass.new }
    ensures rows { IfOk result (λ list. list.items ≡ all_rows (view_in store.now pass.old)) }
{
    let mut list = Vec::new(alloc);
    let mut place = ScanPlace::nowhere();
    let mut rows = Rows64::new();
    let mut cursor = Cursor {
        next: Key::of_vertex(0),
        until: Key::end(),
        done: false,
    };
    'portions: for _ in rt.forever() {
        scan_step(rt, store, pass, &mut place, &mut cursor, &mut rows);
        list.extend_from_slice(rows.as_slice())?;
        if cursor.done {
            return Ok(list);
        }
    }
    unreachable!()
}

/// One list of rows.
fn list_of(alloc: Global, rows: Vec<Row>) -> Result<RowLists, NoMemory>
    ensures one { IfOk result (λ lists. length lists ≡ 1) }
    ensures rows { IfOk result (λ lists. rows_in lists ≡ rows.items) }
{
    let mut lists = RowLists::new(alloc);
    lists.push(RowList::from_vec(rows))?;
    Ok(lists)
}

/// So many lists with the same rows: empty ones are added.
pub fn filled_up(alloc: Global, mut lists: RowLists, count: u32) -> Result<RowLists, NoMemory>
    requires few { length lists ≤ count }
    ensures count { IfOk result (λ new. length new ≡ count) }
    ensures rows { IfOk result (λ new. rows_in new ≡ rows_in lists) }
{
    'lists: while lists.len() < count as usize {
        lists.push(RowList::new(alloc))?;
    }
    Ok(lists)
}
