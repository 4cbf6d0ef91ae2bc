//! Pins and sweeps: what may be thrown away while others still read.
//!
//! 1. A pass announces before it loads the clock by which it begins, and a sweep loads the clock before it looks at a
//!    pass. So a pass whose pin the sweep doesn't find begins no earlier than at the sweep's clock.
//! 2. What lies below a sweep's horizon nobody needs: no open transaction began below it, and none will.
#![tactic(auto)]

mod laws;
mod pins;
mod places;
mod sweep;

pub use laws::{passes_stay_pinned, sweeps_are_safe};
pub use pins::{PinSeat, Pins};
pub use places::PinPlaces;
pub use sweep::Sweep;
