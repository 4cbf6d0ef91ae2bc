//! The programs of docs/LIBRARY.md.
#![tactic(auto)]

mod first;
mod held;
mod limits;
mod reads;
#[cfg(test)]
mod tests;

pub use first::{FirstPayment, pay_first};
pub use held::{Holder, Party, Rival, pay_while_held};
pub use limits::{Clerk, Pay, pay_by_two};
pub use reads::{Seen, Survey, survey_three};
