//! What two passes of one store do, from the making of the store to its end.

ghost use Rattle.std.specs.Prelude.{◌≡◌, ◌∷◌};
ghost use Rattle.std.specs.Thread.{IsSync};
ghost use Rattle.shared_store.specs.Ends.{AreIdle};
ghost use Rattle.shared_store.specs.Passes.{IsIdle};

use shared_store::{Closed, Pass, Store, close, new};
use std::alloc::Global;
use txn_manager::{Config, StoreRefusal};

/// What two passes do, which have no transaction before and none afterwards. It keeps what it is answered. Threads may
/// share what it is run by.
pub trait Case<R> {
    fn run(&mut self, rt: &R, store: &Store, one: &mut Pass, two: &mut Pass)
        requires sync { IsSync R.row }
        requires one { IsIdle store.now one.old }
        requires two { IsIdle store.now two.old }
        ensures one { IsIdle store.now one.new }
        ensures two { IsIdle store.now two.new }
        ensures first_number { one.new.seats.number ≡ one.old.seats.number }
        ensures second_number { two.new.seats.number ≡ two.old.seats.number };
}

/// Makes a store without rows, has its first two passes do this, and closes it with all passes.
pub fn run_case<R, C: Case<R>>(
    rt: &R,
    alloc: Global,
    config: Config,
    case: &mut C,
) -> Result<Closed, StoreRefusal>
    requires { IsSync R.row }
{
    let (store, mut passes) = match new(alloc, config) {
        Ok(made) => made,
        Err(refused) => return Err(refused),
    };
    run_by_first(rt, &store, passes.list.as_mut_slice(), case);
    Ok(close(store, passes))
}

/// Has the first two of all passes do this.
fn run_by_first<R, C: Case<R>>(rt: &R, store: &Store, passes: &mut [Pass], case: &mut C)
    requires sync { IsSync R.row }
    requires passes { AreIdle store.now passes.old }
    ensures { AreIdle store.now passes.new }
{
    let Some((one, rest)) = passes.split_first_mut() else {
        return;
    };
    run_with_next(rt, store, one, rest, case);
}

/// Has a pass and the first of the rest do this.
fn run_with_next<R, C: Case<R>>(
    rt: &R,
    store: &Store,
    one: &mut Pass,
    rest: &mut [Pass],
    case: &mut C,
)
    requires sync { IsSync R.row }
    requires passes { AreIdle store.now (one.old ∷ rest.old) }
    ensures { AreIdle store.now (one.new ∷ rest.new) }
{
    if !rest.is_empty() {
        case.run(rt, store, one, &mut rest[0]);
    }
}
