//! What a call for room leaves of a pass between calls. Each law is a clause.

ghost use Rattle.pass_room.specs.Making.{AccountHasRoom, IdleHasRoom, OpenHasRoom};

/// The pass has its open transaction still, or none; and its account is as it was, but that a write was answered `Full`
/// if the store was full.
pub fn passes_go_on_with_room()
    ensures account { AccountHasRoom }
    ensures idle { IdleHasRoom }
    ensures opened { OpenHasRoom }
{}
