//! A pass that announces, loads the clock and pins itself, and a sweep over the pins of 64 passes.

ghost use Rattle.std.specs.Prelude.{◌≡◌, ◌<◌};

use crate::best::{BestCall, CALLS, ROUNDS};
use anyhow::Result;
use atomic_table::{Play, Table, TableRule};
use epoch_reclaim::{PinPlaces, PinSeat, Pins};
use std::alloc::Global;
use std::rt::Clock;
use std::time::Instant;

/// A rule that allows each step.
struct Anything;

impl TableRule<(), (), ()> for Anything {
    ghost holds = { λ _ _. Unit {0} };

    ghost first = { λ _. tt };
}

impl Play<(), ()> for Anything {
    ghost then = { λ _ _ _ _. Unit {0} };
}

pub fn time<R: Clock + Print>(rt: &R, alloc: Global) -> Result<()> {
    let words = vec![in alloc; 0u64; 1024]?;
    let (table, mut pass) = Table::of_words(alloc, words.as_slice(), &())?;
    let pins: Pins<'_, (), (), Anything> = Pins {
        table: &table.shared,
        places: PinPlaces {
            clock: 8,
            first: 16,
            stride: 8,
            passes: 64,
        },
    };
    let mut best = BestCall::new();
    'rounds: for _round in 0..ROUNDS {
        let begun = Instant::now(rt)?;
        let sum = pin_often(&pins, &mut pass);
        best.add(begun.elapsed(rt)?, CALLS, sum);
    }
    best.say(rt, "pin")?;
    Ok(())
}

/// Announces, loads the clock and pins, again and again.
fn pin_often(pins: &Pins<'_, (), (), Anything>, pass: &mut PinSeat<()>) -> u64
    requires table { (pass.old.table_id ≡ pins.now.table.now.table_id)
        × (pins.now.table.now.table_id.words ≡ 1024) }
    requires places { (pins.now.places.first ≡ 16) × (pins.now.places.stride ≡ 8)
        × (pins.now.places.passes ≡ 64) × (pins.now.places.clock ≡ 8) }
    ensures table { pass.new.table_id ≡ pass.old.table_id }
{
    let mut sum: u64 = 0;
    'calls: for _call in 0..CALLS {
        pins.announce::<Anything>(pass, 3);
        let start = pins.table.load::<Anything>(pass, 8).min(1 << 62);
        pins.pin::<Anything>(pass, 3, start);
        sum = sum.wrapping_add(start);
    }
    sum
}
