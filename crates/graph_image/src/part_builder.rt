//! Rows in, and an image out that several threads make.
//!
//! 1. Rows are kept in parts. A part that is full stays where it is, and each is read by a thread of its own.
//! 2. The rows are let go as soon as the arcs out of each vertex are laid.

ghost use Rattle.std.specs.Prelude.{◌≡◌, [], ◌++◌, IfOk, OnErr, OnOk};
ghost use Rattle.graph_model.specs.declared.write.Kind.TheVariants.{Undirected};
ghost use Rattle.graph_model.specs.Graph.{Graph, IsSymmetric};
ghost use Rattle.graph_model.specs.Rows.{AreRowsOf};
ghost use Rattle.part_scan.specs.Parts.{rows_in};
ghost use Rattle.graph_image.specs.Images.{IsImageOf};
ghost use Rattle.graph_image.specs.Building.{AreStorable, AreEnded};

use crate::image::Image;
use crate::parted::{out_of, with_arcs_in};
use graph_model::{Kind, NoMemory, Row};
use items::RoomyItems;
use part_scan::{RowList, RowLists};
use std::alloc::Global;
use std::marker::Model;
use std::mem::replace;
use std::thread::Threads;

/// How many rows a part has at least before the next one begins: 12 MiB of them, enough to be worth a thread.
const PART_ROWS: usize = 524_288;

/// The rows that were pushed so far.
#[derive(Drop)]
pub struct PartBuilder {
    alloc: Global,
    /// Parts that no row comes to any more.
    full: RoomyItems<RowList>,
    /// The part that rows come to.
    last: RoomyItems<Row>,
}

impl Model for PartBuilder {
    ghost use Rattle.std.specs.Prelude.{List, ◌++◌};
    ghost use Rattle.graph_model.specs.declared.row.Row.{Row};
    ghost use Rattle.part_scan.specs.Parts.{rows_in};
    ghost use Rattle.graph_image.specs.Building.{AreStorable};

    ghost Value = { List Row };

    ghost view = { λ b. rows_in b.full.items ++ b.last.items };

    ghost invariant = { λ b. AreStorable (rows_in b.full.items ++ b.last.items) };
}

impl PartBuilder {
    /// No rows. Takes no memory.
    pub fn new(alloc: Global) -> PartBuilder
        ensures { result ≡ [] }
    {
        PartBuilder {
            alloc,
            full: RoomyItems::new(alloc),
            last: RoomyItems::new(alloc),
        }
    }

    /// The rows of these lists, one behind the other, each list a part. Takes no memory.
    pub fn of_lists(alloc: Global, lists: RowLists) -> PartBuilder
        requires { AreStorable (rows_in lists) }
        ensures { result ≡ rows_in lists }
    {
        PartBuilder {
            alloc,
            full: RoomyItems::from_items(lists),
            last: RoomyItems::new(alloc),
        }
    }

    /// Appends rows, which stay in one part.
    pub fn push(&mut self, rows: &[Row]) -> Result<(), NoMemory>
        requires { AreStorable (self.old ++ rows.now) }
        ensures ok { OnOk result (self.new ≡ self.old ++ rows.now) }
        ensures err { OnErr result (self.new ≡ self.old) }
    {
        // Only before rows come, and never within them: those of one call stay in one part.
        if self.last.len() >= PART_ROWS {
            self.begin_part()?;
        }
        self.last.reserve(rows.len())?;
        'rows: for row in rows {
            self.last.push_within(*row);
        }
        Ok(())
    }

    /// The rows to come begin a part of their own.
    fn begin_part(&mut self) -> Result<(), NoMemory>
        ensures { self.new ≡ self.old }
    {
        self.full.reserve(1)?;
        let mut next = RoomyItems::new(self.alloc);
        // At once, since a list that grows is copied, and a part never has many more.
        next.reserve(PART_ROWS)?;
        let last = replace(&mut self.last, next);
        self.full.push_within(last.into_items());
        Ok(())
    }

    /// The image of the graph whose rows these are. Of an undirected graph the arcs out of a vertex are those into it
    /// as well.
    pub fn finish<R: Threads + Sync>(self, rt: &R, kind: Kind) -> Result<Image, NoMemory>
        requires ended { AreEnded self }
        requires symmetric { kind ≡ Undirected → (g : Graph) × AreRowsOf self g × IsSymmetric g }
        ensures { IfOk result (λ image. (g : Graph) → AreRowsOf self g → IsImageOf image g) }
    {
        let PartBuilder {
            alloc,
            mut full,
            last,
        } = self;
        full.reserve(1)?;
        full.push_within(last.into_items());
        let parts = full.into_items();
        let (vertices, out) = out_of(rt, alloc, parts.as_slice())?;
        // Before the arcs in are made: rows and both arrays together would be the most memory of a kernel's line.
        drop(parts);
        let image = with_arcs_in(alloc, kind, vertices, out)?;
        Ok(image)
    }
}
