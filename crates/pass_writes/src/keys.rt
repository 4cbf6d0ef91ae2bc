//! The keys whose cells a write needs.
//!
//! 1. They are four at most: a row, the same edge's row the other way, and the rows of both ends. So they take no
//!    memory.

ghost use Rattle.std.specs.Prelude.{◌≡◌, ◌≤◌, ◌++◌, length};
ghost use Rattle.pass_prunes.specs.RowWrites.Written.{all_keys, ends_in, touched_keys, with_back, written_keys};

use graph_model::Key;
use pass_prunes::below::{EndKeys, WrittenRows};
use std::marker::Model;

/// Four keys at most.
#[derive(Drop)]
pub(crate) struct FewKeys {
    keys: [Key; 4],
    count: usize,
}

impl Model for FewKeys {
    ghost use Rattle.std.specs.Prelude.{◌≡◌, ◌≤◌, List, length, take};
    ghost use Rattle.graph_model.specs.declared.row.Key.{Key};

    ghost Value = { List Key };

    ghost view = { λ few. take few.count few.keys };

    ghost invariant = { λ few. (few.count ≤ 4) × (length few.keys ≡ 4) };
}

impl FewKeys {
    /// Those of the rows that a write writes, needs or touches.
    pub(crate) fn of_write(rows: &WrittenRows) -> FewKeys
        ensures keys { result ≡ all_keys rows.now }
        ensures few { length result ≤ 4 }
    {
        FewKeys::of(rows.row, rows.back, rows.ends)
    }

    /// Those of the rows that it changes.
    pub(crate) fn of_changes(rows: &WrittenRows) -> FewKeys
        ensures keys { result ≡ written_keys rows.now ++ touched_keys rows.now }
        ensures few { length result ≤ 4 }
    {
        if rows.touches {
            return FewKeys::of(rows.row, rows.back, rows.ends);
        }
        FewKeys::of(rows.row, rows.back, None)
    }

    fn of(row: Key, back: Option<Key>, ends: Option<EndKeys>) -> FewKeys
        ensures keys { result ≡ with_back back row ++ ends_in ends }
        ensures few { length result ≤ 4 }
    {
        match (back, ends) {
            (None, None) => FewKeys {
                keys: [row, row, row, row],
                count: 1,
            },
            (Some(back), None) => FewKeys {
                keys: [back, row, row, row],
                count: 2,
            },
            (None, Some(ends)) => FewKeys {
                keys: [row, ends.source, ends.target, row],
                count: 3,
            },
            (Some(back), Some(ends)) => FewKeys {
                keys: [back, row, ends.source, ends.target],
                count: 4,
            },
        }
    }

    /// Lends them.
    pub(crate) fn as_slice(&self) -> &[Key]
        ensures { result.now ≡ self.now }
    {
        &self.keys[..self.count]
    }
}
