//! The transactions of one pass, by their numbers.
//!
//! Only the latest may be open, and an open one has no stamp.

ghost use Rattle.std.specs.Prelude.{◌≡◌, ◌^◌, ◌<◌, length, Some, IsSome, OnOk, OnErr};

use graph_model::State;
use items::{Items, NoMemory};
use std::alloc::Global;

/// What a manager keeps of a pass, whose latest transaction alone may be open.
#[derive(Drop)]
pub struct PassHistory {
    /// The start of the open transaction.
    pub start: Option<u64>,
    /// The stamp of each transaction by its number, which counts from 1: none of one that is open or
    /// has ended without a commit.
    pub stamps: Items<Option<u64>>,
}

impl PassHistory {
    ghost use Rattle.txn_manager.specs.Histories.{no_history, stamp_at, state_at, with_open, with_none, with_stamp};

    /// Of a pass that has begun nothing.
    pub fn new(alloc: Global) -> PassHistory
        ensures { result ≡ no_history }
    {
        PassHistory {
            start: None,
            stamps: Items::new(alloc),
        }
    }

    /// How many transactions the pass has begun.
    pub fn begun(&self) -> u32
        requires { length self.now.stamps < 2 ^ 32 }
        ensures { result ≡ length self.now.stamps }
    {
        self.stamps.len() as u32
    }

    /// Begins the next transaction.
    pub fn begin(&mut self, start: u64) -> Result<(), NoMemory>
        ensures ok { OnOk result (self.new ≡ with_open self.old start) }
        ensures err { OnErr result (self.new ≡ self.old) }
    {
        self.stamps.push(None)?;
        self.start = Some(start);
        Ok(())
    }

    /// Ends the open transaction with a commit, and answers its start.
    pub fn commit(&mut self, stamp: u64) -> u64
        requires is_open { IsSome self.old.start }
        requires begun { 0 < length self.old.stamps }
        ensures start { self.old.start ≡ Some result }
        ensures stamped { self.new ≡ with_stamp self.old stamp }
    {
        let latest = self.stamps.len() - 1;
        self.stamps.set(latest, Some(stamp));
        self.start.take().unwrap()
    }

    /// Ends the open transaction without a commit.
    pub fn end(&mut self)
        ensures { self.new ≡ with_none self.old }
    {
        self.start = None;
    }

    /// Where the transaction with this number stands.
    pub fn state(&self, number: u32) -> State
        ensures { result ≡ state_at self.now number }
    {
        match self.stamp(number) {
            Some(stamp) => State::Committed { stamp },
            None if number as usize == self.stamps.len() && self.start.is_some() => State::Live,
            None => State::Aborted,
        }
    }

    /// The stamp of the transaction with this number.
    fn stamp(&self, number: u32) -> Option<u64>
        ensures { result ≡ stamp_at self.now.stamps number }
    {
        let place = number.checked_sub(1)?;
        *self.stamps.as_slice().get(place as usize)?
    }
}
