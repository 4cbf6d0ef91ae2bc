//! What an engine may be made with, and what its refusals say.

use graph_model::{BeginRefusal, Kind};
use std::test::Fail;
use txn_manager::{Config, RoomRefusal, StoreRefusal};

#[test]
fn a_store_has_leaves_passes_and_transactions_within_its_limits(rt: HostRuntime) {
    for (leaves, passes, txns_per_pass, want) in [
        (1, 1, 1, false),
        (131072, 64, 4294967295, false),
        (131073, 64, 4294967295, true),
        (131072, 65, 4294967295, true),
        (0, 1, 1, true),
        (1, 0, 1, true),
        (1, 1, 0, true),
    ] {
        let config = Config {
            kind: Kind::Directed,
            leaves,
            passes,
            txns_per_pass,
        };
        assert_eq!(rt;
            config.is_too_large(),
            want,
            "{leaves}, {passes}, {txns_per_pass}"
        );
    }
}

#[test]
fn refusals_tell_their_causes(rt: HostRuntime) -> Result<(), Fail> {
    let alloc = rt.alloc();
    let used = format!(in alloc; "{refusal}", refusal = BeginRefusal::TxnsUsed)?;
    assert_eq!(rt; used.as_str(), "all transactions of the pass are used");
    let large = format!(in alloc; "{refusal}", refusal = StoreRefusal::TooLarge)?;
    assert_eq!(rt; large.as_str(), "store too large");
    let full = format!(in alloc; "{refusal}", refusal = RoomRefusal::Full { leaves: 4 })?;
    assert_eq!(rt; full.as_str(), "full at 4 leaves");
    Ok(())
}
