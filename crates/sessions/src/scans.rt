//! What a transaction sees of many rows at once.
//!
//! 1. A scan gives 64 rows at most at a time, in the order of their keys, so it needs no more memory than what is made
//!    of them.

ghost use Rattle.std.specs.Prelude.{◌≡◌, ◌≤◌, ◌++◌, IfOk, OnOk, map};
ghost use Rattle.graph_model.specs.declared.limits.TheConstants.{MAX_ID};
ghost use Rattle.graph_model.specs.AccountSteps.{ReadsBy, view_of};
ghost use Rattle.graph_image.specs.Images.{IsImageOf};
ghost use Rattle.sessions.specs.Scanned.{neighbour_of, neighbours_of};

use crate::place::SessionPlace;
use crate::transaction::Transaction;
use graph_image::{Builder, Image};
use graph_model::{Cursor, Key, NoMemory, Row, Rows64, VertexEngine};
use items::Items;
use std::alloc::Global;

/// The end of an arc that leads from a vertex, with the weight of the arc.
#[derive(Clone, Copy, Debug, PartialEq, Eq)]
pub struct Neighbour {
    /// Where the arc leads.
    pub id: u64,
    /// What the arc weighs.
    pub weight: u64,
}

impl<E: VertexEngine, P: SessionPlace> Transaction<E, P> {
    /// The ends of all arcs that lead from a vertex, in rising order.
    pub fn neighbours(&mut self, alloc: Global, v: u64) -> Result<Items<Neighbour>, NoMemory>
        requires within { v ≤ MAX_ID }
        ensures answer { IfOk result (λ list.
            list ≡ neighbours_of (view_of (E.account self.old.engine) self.old.begun.start) v) }
        ensures reads { ReadsBy (E.account self.old.engine) (E.account self.new.engine) }
        ensures begun { self.new.begun ≡ self.old.begun }
    {
        let mut list = Items::new(alloc);
        let mut rows = Rows64::new();
        let mut cursor = Cursor {
            next: Key { src: v, second: 1 },
            until: Key {
                src: v + 1,
                second: 0,
            },
            done: false,
        };
        'turns: while !cursor.done {
            self.scan(&mut cursor, &mut rows);
            push_all(&mut list, rows.as_slice())?;
        }
        Ok(list)
    }

    /// The image of the graph that it sees, for the kernels. An image has places for less than 2^32 rows: more are
    /// answered as out of memory.
    pub fn image(&mut self, alloc: Global) -> Result<Image, NoMemory>
        ensures answer { IfOk result (λ image.
            IsImageOf image (view_of (E.account self.old.engine) self.old.begun.start)) }
        ensures reads { ReadsBy (E.account self.old.engine) (E.account self.new.engine) }
        ensures begun { self.new.begun ≡ self.old.begun }
    {
        let mut builder = Builder::new(alloc);
        let mut count: u64 = 0;
        let mut rows = Rows64::new();
        let mut cursor = Cursor {
            next: Key::of_vertex(0),
            until: Key::end(),
            done: false,
        };
        'turns: while !cursor.done {
            self.scan(&mut cursor, &mut rows);
            count = count.saturating_add(rows.len() as u64);
            if count > u64::from(u32::MAX) {
                return Err(NoMemory);
            }
            builder.push(rows.as_slice())?;
        }
        builder.finish()
    }
}

/// Appends the neighbours that these rows tell.
fn push_all(list: &mut Items<Neighbour>, rows: &[Row]) -> Result<(), NoMemory>
    ensures { OnOk result (list.new ≡ list.old ++ map neighbour_of rows.now) }
{
    'rows: for row in rows {
        list.push(Neighbour {
            id: row.key.second.saturating_sub(1),
            weight: row.weight,
        })?;
    }
    Ok(())
}
