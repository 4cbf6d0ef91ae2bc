//! Cases of two passes in one thread.

ghost use Rattle.std.specs.Prelude.{◌≡◌, ◌≤◌};
ghost use Rattle.graph_model.specs.declared.limits.TheConstants.{MAX_ID};
ghost use Rattle.shared_store.specs.Passes.{IsIdle, IsOpen};

use crate::case::Case;
use crate::txns::{add_vertex, look_for, makes};
use graph_model::{Key, Refusal, Write};
use shared_store::{Pass, Store, Written, abort, begin, commit, weight, write};
use std::sync::Wait;

/// A pass adds vertices from 1 on in one transaction, until one isn't added, and takes all of them back.
#[derive(Clone, Copy, Debug, PartialEq, Eq)]
pub struct FillCell {
    pub added: u32,
    /// For which row the last write needs room, and for how many rows of its cell.
    pub needs: Option<(Key, u8)>,
}

impl<R: Wait> Case<R> for FillCell {
    fn run(&mut self, rt: &R, store: &Store, one: &mut Pass, _two: &mut Pass) {
        match begin(rt, store, one) {
            Ok(_) => {}
            Err(_) => return,
        }
        fill(rt, store, one, self);
        abort(rt, store, one);
    }
}

/// Adds vertices from 1 on, until one isn't added.
fn fill(rt: &impl Wait, store: &Store, pass: &mut Pass, filled: &mut FillCell)
    requires opened { IsOpen store.now pass.old }
    ensures opened { IsOpen store.now pass.new }
    ensures number { pass.new.seats.number ≡ pass.old.seats.number }
{
    'vertices: for before in 0..1000u32 {
        let v = u64::from(before) + 1;
        let written = write(rt, store, pass, Write::AddVertex { v });
        filled.needs = needed(&written);
        match written {
            Ok(Written::Done) => filled.added = before + 1,
            _ => return,
        }
    }
}

/// Which row needs room, if one does.
fn needed(written: &Result<Written, Refusal>) -> Option<(Key, u8)> {
    match written {
        Ok(Written::NeedRoom(short)) => Some((short.key(), short.need())),
        _ => None,
    }
}

/// A pass adds a vertex and commits. Then the other one looks for it.
#[derive(Clone, Copy, Debug, PartialEq, Eq)]
pub struct CommitThenLook {
    /// The stamp of the commit.
    pub stamp: Option<u64>,
    /// The start of the other transaction, and whether it sees the vertex.
    pub seen: Option<(u64, bool)>,
}

impl<R: Wait> Case<R> for CommitThenLook {
    fn run(&mut self, rt: &R, store: &Store, one: &mut Pass, two: &mut Pass) {
        self.stamp = add_vertex(rt, store, one, 5);
        self.seen = look_for(rt, store, two, 5);
    }
}

/// A pass adds an edge of weight 7, and begins a transaction then. The other one sets the weight to 1, 2 and so on, so
/// many times, in transactions of their own. Then the first reads the weight.
#[derive(Clone, Copy, Debug, PartialEq, Eq)]
pub struct ReadAroundSets {
    pub times: u32,
    /// The number of the last transaction that has set the weight.
    pub number: u32,
    /// The weight that is read.
    pub weight: Option<u64>,
}

impl<R: Wait> Case<R> for ReadAroundSets {
    fn run(&mut self, rt: &R, store: &Store, one: &mut Pass, two: &mut Pass) {
        add_edge(rt, store, one);
        match begin(rt, store, one) {
            Ok(_) => {}
            Err(_) => return,
        }
        self.number = set_often(rt, store, two, self.times);
        self.weight = weight(rt, store, one, 1, 2);
        abort(rt, store, one);
    }
}

/// Adds two vertices and the edge between them in one transaction.
fn add_edge(rt: &impl Wait, store: &Store, pass: &mut Pass)
    requires idle { IsIdle store.now pass.old }
    ensures idle { IsIdle store.now pass.new }
    ensures number { pass.new.seats.number ≡ pass.old.seats.number }
{
    match begin(rt, store, pass) {
        Ok(_) => {}
        Err(_) => return,
    }
    makes(rt, store, pass, Write::AddVertex { v: 1 });
    makes(rt, store, pass, Write::AddVertex { v: 2 });
    let edge = Write::AddEdge {
        u: 1,
        v: 2,
        weight: 7,
    };
    makes(rt, store, pass, edge);
    commit(rt, store, pass);
}

/// Sets the weight so often, and answers the number of the last transaction.
fn set_often(rt: &impl Wait, store: &Store, pass: &mut Pass, times: u32) -> u32
    requires idle { IsIdle store.now pass.old }
    ensures idle { IsIdle store.now pass.new }
    ensures number { pass.new.seats.number ≡ pass.old.seats.number }
{
    let mut number: u32 = 0;
    'times: for before in 0..times {
        number = set_weight(rt, store, pass, before + 1);
    }
    number
}

/// Sets the weight in a transaction of its own, and answers its number; 0 where none can begin.
fn set_weight(rt: &impl Wait, store: &Store, pass: &mut Pass, weight: u32) -> u32
    requires idle { IsIdle store.now pass.old }
    ensures idle { IsIdle store.now pass.new }
    ensures number { pass.new.seats.number ≡ pass.old.seats.number }
{
    let begun = match begin(rt, store, pass) {
        Ok(begun) => begun,
        Err(_) => return 0,
    };
    let set = Write::SetEdge {
        u: 1,
        v: 2,
        weight: u64::from(weight),
    };
    makes(rt, store, pass, set);
    commit(rt, store, pass);
    begun.by.number
}
