//! A list of retired buffers under pins.

ghost use Rattle.std.specs.Prelude.{◌≡◌, ◌<◌};

use atomic_table::{Play, Table, TableRule};
use epoch_reclaim::{PinPlaces, PinSeat, Pins};
use std::alloc::{AllocError, Global};

/// A rule that allows each step. A store says more, and shows of each kind of step that it keeps what it says.
pub struct AnyStep;

impl TableRule<(), (), ()> for AnyStep {
    ghost holds = { λ _ _. Unit {0} };

    ghost first = { λ _. tt };
}

impl Play<(), ()> for AnyStep {
    ghost then = { λ _ _ _ _. Unit {0} };
}

/// A buffer that was taken out at a stamp. Whoever began at or below it may still read it.
#[derive(Drop)]
pub struct RetiredBuffer {
    pub stamp: u64,
    pub buffer: Vec<u8>,
}

/// Frees the buffers that nobody can read any more: those that were taken out below the horizon.
pub fn reclaim(
    pins: &Pins<'_, (), (), AnyStep>,
    pass: &mut PinSeat<()>,
    retired: &mut Vec<RetiredBuffer>,
)
    requires table { (pass.old.table_id ≡ pins.now.table.now.table_id)
        × (pins.now.table.now.table_id.words ≡ 48) }
    requires places { (pins.now.places.clock ≡ 8) × (pins.now.places.first ≡ 16)
        × (pins.now.places.stride ≡ 8) × (pins.now.places.passes ≡ 4) }
    ensures table { pass.new.table_id ≡ pass.old.table_id }
{
    let mut sweep = pins.sweep_begin::<AnyStep>(pass);
    'passes: for _pass in 0..4u32 {
        pins.sweep_look::<AnyStep>(pass, &mut sweep);
    }
    let horizon = pins.horizon(&sweep);
    retired.retain(|one| one.stamp >= horizon);
}

/// How many of three buffers, taken out at 3, 5 and 7, are left at clock 9: after a reclaim while a pass has announced,
/// one while it is pinned at 5, and one when it no longer is.
pub fn reclaim_three_times(alloc: Global) -> Result<[usize; 3], AllocError> {
    let words = vec![in alloc; 0u64; 48]?;
    let mut retired = Vec::with_capacity(alloc, 3)?;
    for stamp in [3, 5, 7] {
        retired.push(RetiredBuffer {
            stamp,
            buffer: vec![in alloc; 0u8; 100]?,
        })?;
    }
    let (table, mut pass) = Table::of_words(alloc, words.as_slice(), &())?;
    let pins: Pins<'_, (), (), AnyStep> = Pins {
        table: &table.shared,
        places: PinPlaces {
            clock: 8,
            first: 16,
            stride: 8,
            passes: 4,
        },
    };
    table.shared.store::<AnyStep>(&mut pass, 8, 9);
    pins.announce::<AnyStep>(&mut pass, 1);
    reclaim(&pins, &mut pass, &mut retired);
    let announced = retired.len();
    pins.pin::<AnyStep>(&mut pass, 1, 5);
    reclaim(&pins, &mut pass, &mut retired);
    let pinned = retired.len();
    pins.unpin::<AnyStep>(&mut pass, 1);
    reclaim(&pins, &mut pass, &mut retired);
    Ok([announced, pinned, retired.len()])
}
