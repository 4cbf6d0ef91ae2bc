//! Passes announce, pin and unpin; sweeps look at the pins.
//!
//! 1. A pass announces before it loads the clock, and pins itself at what it loaded. So from before it knows its start
//!    until it ends, its word holds back what it may read.
//! 2. A sweep loads the clock before any pin. A pass at which it has looked, and which begins later, loads a clock that
//!    is no less.
//! 3. A sweep reads the pins with no latch. A pin found may be gone by now: then the horizon is too old, which keeps
//!    records that nobody reads, and throws away none that somebody may. The cost is their memory, until the next
//!    sweep.
//! 4. Each step is sequentially consistent, and says which order it needs.
//! 5. The rule of the table is its owner's. Each call asks that the step keeps the rule, and tells what the owner's
//!    kind of step says of it.

ghost use Rattle.std.specs.Prelude.{◌≡◌, ℕ, ◌<◌, ◌+◌, ◌^◌};
ghost use Rattle.epoch_reclaim.specs.Pinned.{announced_word, pinned_word, unpinned, begun, looked_at, horizon_of};
ghost use Rattle.epoch_reclaim.specs.Steps.{pin_place, MayStore, MayLoad, HasStored, HasLoaded};

use crate::places::PinPlaces;
use crate::sweep::Sweep;
use atomic_table::{Play, Seat, Shared, TableRule};

/// A seat of the table that has the pins. It takes no bytes.
pub type PinSeat<V> = Seat<(), V>;

/// The pins of a table, and its clock.
#[derive(Drop)]
pub struct Pins<'a, V, K, P: TableRule<(), V, K>> {
    /// The table whose words they are.
    pub table: &'a Shared<(), V, K, P>,
    /// Which of its words are the pins, and which is the clock.
    pub places: PinPlaces,
}

impl<'a, V, K, P: TableRule<(), V, K>> Pins<'a, V, K, P> {
    /// Holds everything back, before the pass loads the clock.
    pub fn announce<M: Play<(), V>>(&self, pass: &mut PinSeat<V>, number: u32)
        requires number { number < self.now.places.passes }
        requires keeps { MayStore (P.holds self.now.table.now.key) self.now.table.now.table_id pass.old
            (pin_place self.now.places number) announced_word M.then }
        ensures announced { HasStored self.now.table.now.table_id pass.old pass.new
            (pin_place self.now.places number) announced_word M.then }
    {
        // Sequentially consistent, and has to be: the store comes before this pass's load of the clock for all
        // others. A sweep that has looked before it finds a horizon that is no higher than the clock that this pass
        // will load.
        self.table.store::<M>(pass, self.places.pin(number), 1);
    }

    /// Holds back what a transaction of this start sees, and no more.
    pub fn pin<M: Play<(), V>>(&self, pass: &mut PinSeat<V>, number: u32, start: u64)
        requires number { number < self.now.places.passes }
        requires start { start < 2 ^ 63 }
        requires keeps { MayStore (P.holds self.now.table.now.key) self.now.table.now.table_id pass.old
            (pin_place self.now.places number) (pinned_word start) M.then }
        ensures pinned { HasStored self.now.table.now.table_id pass.old pass.new
            (pin_place self.now.places number) (pinned_word start) M.then }
    {
        // Sequentially consistent, and needs no order: a sweep that still finds the announcement keeps more than it
        // must.
        self.table
            .store::<M>(pass, self.places.pin(number), start + 2);
    }

    /// Holds nothing back any more.
    pub fn unpin<M: Play<(), V>>(&self, pass: &mut PinSeat<V>, number: u32)
        requires number { number < self.now.places.passes }
        requires keeps { MayStore (P.holds self.now.table.now.key) self.now.table.now.table_id pass.old
            (pin_place self.now.places number) unpinned M.then }
        ensures unpinned { HasStored self.now.table.now.table_id pass.old pass.new
            (pin_place self.now.places number) unpinned M.then }
    {
        // Sequentially consistent, and has to be a release: what the transaction read, it has read before. A sweep that
        // still finds the pin keeps more than it must.
        self.table.store::<M>(pass, self.places.pin(number), 0);
    }

    /// A sweep that has loaded the clock, and no pin yet.
    pub fn sweep_begin<M: Play<(), V>>(&self, pass: &mut PinSeat<V>) -> Sweep
        requires keeps { MayLoad (P.holds self.now.table.now.key) self.now.table.now.table_id pass.old
            self.now.places.clock M.then }
        ensures begun { result ≡ begun result.clock }
        ensures loaded { HasLoaded self.now.table.now.table_id pass.old pass.new self.now.places.clock
            result.clock M.then }
    {
        // Sequentially consistent, and has to come before the loads of the pins for all. The clock may have risen
        // since: then the horizon is too old.
        let clock = self.table.load::<M>(pass, self.places.clock as usize);
        Sweep {
            clock,
            looked: 0,
            least: None,
        }
    }

    /// Looks at the pin of the next pass.
    pub fn sweep_look<M: Play<(), V>>(&self, pass: &mut PinSeat<V>, sweep: &mut Sweep)
        requires left { sweep.old.looked < self.now.places.passes }
        requires keeps { MayLoad (P.holds self.now.table.now.key) self.now.table.now.table_id pass.old
            (pin_place self.now.places sweep.old.looked) M.then }
        ensures looked { (word : ℕ) × (sweep.new ≡ looked_at sweep.old word)
            × HasLoaded self.now.table.now.table_id pass.old pass.new (pin_place self.now.places sweep.old.looked)
            word M.then }
    {
        // Sequentially consistent, and has to be an acquire: where the pin is gone, the reads under it are done.
        let word = self.table.load::<M>(pass, self.places.pin(sweep.looked));
        sweep.add(word);
    }

    /// The horizon of a sweep that has looked at all passes: the least of the clock and of the starts found. What
    /// nobody needs whose start is at or above it may be thrown away.
    pub fn horizon(&self, sweep: &Sweep) -> u64
        requires whole { sweep.now.looked ≡ self.now.places.passes }
        ensures { result ≡ horizon_of sweep.now }
    {
        match sweep.least {
            Some(start) => start.min(sweep.clock),
            None => sweep.clock,
        }
    }

    /// The least start that such a sweep has found, if any pass was pinned.
    pub fn least_pin(&self, sweep: &Sweep) -> Option<u64>
        requires whole { sweep.now.looked ≡ self.now.places.passes }
        ensures { result ≡ sweep.now.least }
    {
        sweep.least
    }
}
