//! Transfers, and how a file tells them.
//!
//! 1. A line that isn't a transfer is named with its number, and then no transfer of the file is taken.
//! 2. Ids and amounts are within the store's limits, so none is refused for that later.

ghost use Rattle.std.specs.Prelude.{◌≤◌};
ghost use Rattle.graph_model.specs.declared.limits.TheConstants.{MAX_ID, MAX_WEIGHT};

use anyhow::{Context, Result, bail};
use std::alloc::Global;
use std::fs;
use std::rt::Files;
use teseo_store::{MAX_ID, MAX_WEIGHT};

/// One account pays another one.
#[derive(Clone, Copy, Debug, PartialEq, Eq)]
pub struct Transfer {
    pub from: u64,
    pub to: u64,
    pub amount: u64,
    ghost from_within: { from ≤ MAX_ID },
    ghost to_within: { to ≤ MAX_ID },
    ghost amount_within: { amount ≤ MAX_WEIGHT },
}

/// The transfers of a file: a line for each, with who pays, who is paid, and the amount.
pub fn read_transfers<R: Files + Alloc<A = Global>>(rt: &R, name: &str) -> Result<Vec<Transfer>> {
    let text = fs::read_to_string(rt, name).context(format_args!("reading {name:?}"))?;
    let mut list = Vec::new(rt.alloc());
    let mut number: u64 = 0;
    'lines: for line in text.lines() {
        number = number.saturating_add(1);
        match transfer_of(line) {
            Some(transfer) => list.push(transfer)?,
            None => bail!("line {number} isn't a transfer: {line:?}"),
        }
    }
    Ok(list)
}

/// The transfer that a line tells, if it tells one between two accounts.
fn transfer_of(line: &str) -> Option<Transfer> {
    let mut fields = line.split_whitespace();
    let from: u64 = fields.next()?.parse().ok()?;
    let to: u64 = fields.next()?.parse().ok()?;
    let amount: u64 = fields.next()?.parse().ok()?;
    if fields.next().is_some() || from == to {
        return None;
    }
    if from > MAX_ID || to > MAX_ID || amount > MAX_WEIGHT {
        return None;
    }
    Some(Transfer { from, to, amount })
}
