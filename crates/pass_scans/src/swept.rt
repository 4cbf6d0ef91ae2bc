//! Cells whose records nobody needs any more, and of which a sweep settles those that it is told.
//!
//! 1. A scan has met records in them. Where the horizon has passed all of them nothing is left but newest values, and
//!    the next scan finds settled rows. A cell with other records is given back as it was found.
//! 2. No cell is unpacked, and no leaf is looked for.

ghost use Rattle.std.specs.Prelude.{◌≡◌};
ghost use Rattle.pass_sweeps.specs.PassSteps.Passes.{HoldsNone, IsPassOf};
ghost use Rattle.pass_sweeps.specs.Sweeping.{GoesOn};

use pass_settles::settle_at_horizon;
use pass_sweeps::below::{Pass, Store};
use pass_sweeps::{end_sweep, sweep_pins};
use std::sync::Wait;

/// Settles those of these cells of which nothing would be left at the horizon of a sweep over the pins but newest
/// values, and answers whether there was one. May wait for each, and takes no memory.
pub fn settle_swept(rt: &impl Wait, store: &Store, pass: &mut Pass, cells: &[u32]) -> bool
    requires pass { IsPassOf store.now pass.old }
    requires none { HoldsNone pass.old }
    ensures pass { IsPassOf store.now pass.new }
    ensures none { HoldsNone pass.new }
    ensures same { GoesOn pass.old pass.new }
{
    let sweep = sweep_pins(store, pass);
    let took = settle_at_horizon(rt, store, pass, &sweep, cells);
    end_sweep(store, pass);
    took
}
