//! The leave to start threads, apart from the handle that gave it.
//!
//! 1. A kernel shares what it is given as a handle among its threads. That a handle may be shared is known of a
//!    function's parameter, and not of what a work has in itself. The leave alone has no bytes, and so any thread may
//!    have it.

use std::marker::PhantomData;
use std::thread::Threads;

/// May start threads, as the handle may from which it is.
#[derive(Drop)]
pub struct Leave<R: Threads> {
    of: PhantomData<R>,
}

impl<R: Threads> Leave<R> {
    /// The leave that a handle has.
    pub fn of(_rt: &R) -> Leave<R> {
        Leave { of: PhantomData }
    }
}

impl<R: Threads> Threads for Leave<R> {}
