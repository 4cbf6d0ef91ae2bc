//! A ring, as it is said.
//!
//! 1. The list leads from each account to who paid it, so it is said from its end back to its first one.

use graph_image::{Entry, Image, Table, Value};
use std::fmt;

/// A ring that was found.
#[derive(Drop)]
pub struct Ring {
    /// Each of them was paid by the next one, and the last one by the first.
    pub accounts: Vec<u64>,
    /// All of them have the same label: they deal with one another more than with others.
    pub is_one_group: bool,
}

impl fmt::Display for Ring {
    fn fmt<W: fmt::Write>(&self, f: &mut fmt::Formatter<W>) -> fmt::Result {
        if let Some(first) = self.accounts.first() {
            write!(f, "{first}")?;
        }
        'accounts: for account in self.accounts.iter().rev() {
            write!(f, " pays {account}")?;
        }
        if self.is_one_group {
            write!(f, ", in one group")?;
        }
        Ok(())
    }
}

/// Whether all these accounts have the same label.
pub fn have_one_label(image: &Image, labels: &Table, accounts: &[u64]) -> bool {
    let mut last = None;
    'accounts: for account in accounts {
        let label = label_of(image, labels.as_slice(), *account);
        if last.is_some() && last != label {
            return false;
        }
        last = label;
    }
    true
}

/// The label of an account, if there is such an account.
fn label_of(image: &Image, labels: &[Entry], account: u64) -> Option<Value> {
    let place = image.position(account)?;
    labels.get(place).map(|entry| entry.value)
}
