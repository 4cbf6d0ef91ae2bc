//! Whether numbers differ, where several threads share them out by their size.
//!
//! 1. Each thread has the numbers of a range, and goes over all of them for these: that reads memory in its order, and
//!    several threads do it side by side.
//! 2. Where a range is cut is guessed from some of the numbers. On the guess rests nothing but time.

ghost use Rattle.std.specs.Prelude.{◌≡◌, ◌==◌, ◌+◌, ◌<◌, ◌↔◌, ℕ, IfOk, true};
ghost use Rattle.std.specs.List.{IsDistinct};
ghost use Rattle.std.specs.Thread.{IsSync};
ghost use Rattle.id_places.specs.Within.{numbers_within};

use crate::distinct::are_distinct;
use items::NoMemory;
use std::alloc::Global;
use std::thread::{Threads, join};

/// So many numbers are looked at for a cut.
const LOOKED_AT: usize = 1024;

/// Whether the numbers from one on and up to another differ. The range is cut so often.
#[cycle(ranges)]
pub(crate) fn differ<R: Threads + Sync>(
    rt: &R,
    alloc: Global,
    numbers: &[u64],
    low: u64,
    last: u64,
    cuts: u32,
) -> Result<bool, NoMemory>
    ensures { IfOk result (λ differ.
        (differ ≡ true) ↔ IsDistinct (λ (x y : ℕ). x == y) (numbers_within low last numbers.now)) }
{
    if cuts == 0 {
        return differ_alone(alloc, numbers, low, last);
    }
    let middle = middle_of(alloc, numbers, low, last)?;
    if middle < low || last <= middle {
        return differ_alone(alloc, numbers, low, last);
    }
    differ_both(rt, alloc, numbers, low, middle, last, cuts)
}

/// The same, where the range is cut after a number in the middle.
#[cycle(ranges)]
fn differ_both<R: Threads + Sync>(
    rt: &R,
    alloc: Global,
    numbers: &[u64],
    low: u64,
    middle: u64,
    last: u64,
    cuts: u32,
) -> Result<bool, NoMemory>
    requires middle { middle < last }
    requires cuts { 0 < cuts }
    ensures { IfOk result (λ differ.
        (differ ≡ true) ↔ (IsDistinct (λ (x y : ℕ). x == y) (numbers_within low middle numbers.now)
        × IsDistinct (λ (x y : ℕ). x == y) (numbers_within (middle + 1) last numbers.now))) }
{
    let above = middle + 1;
    let (first, second) = join(
        rt,
        || -> Result<bool, NoMemory>
            requires { IsSync R.row × (0 < cuts) }
            ensures { IfOk result (λ differ.
                (differ ≡ true) ↔ IsDistinct (λ (x y : ℕ). x == y) (numbers_within low middle numbers.entry.now)) }
        { differ(rt, alloc, numbers, low, middle, cuts - 1) },
        || -> Result<bool, NoMemory>
            requires { IsSync R.row × (0 < cuts) }
            ensures { IfOk result (λ differ.
                (differ ≡ true) ↔ IsDistinct (λ (x y : ℕ). x == y) (numbers_within above last numbers.entry.now)) }
        { differ(rt, alloc, numbers, above, last, cuts - 1) },
    );
    Ok(first? && second?)
}

/// The same by one thread.
fn differ_alone(alloc: Global, numbers: &[u64], low: u64, last: u64) -> Result<bool, NoMemory>
    ensures { IfOk result (λ differ.
        (differ ≡ true) ↔ IsDistinct (λ (x y : ℕ). x == y) (numbers_within low last numbers.now)) }
{
    let mut part = Vec::with_capacity(alloc, count_within(numbers, low, last))?;
    'numbers: for number in numbers {
        if low <= *number && *number <= last {
            part.push(*number)?;
        }
    }
    Ok(are_distinct(part))
}

/// How many numbers a range has.
fn count_within(numbers: &[u64], low: u64, last: u64) -> usize {
    let mut count = 0usize;
    'numbers: for number in numbers {
        if low <= *number && *number <= last {
            count = count.saturating_add(1);
        }
    }
    count
}

/// About the middle one of the numbers of a range.
fn middle_of(alloc: Global, numbers: &[u64], low: u64, last: u64) -> Result<u64, NoMemory> {
    let step = numbers.len() / LOOKED_AT + 1;
    let mut some = Vec::with_capacity(alloc, LOOKED_AT)?;
    'places: for place in 0..LOOKED_AT {
        if let Some(number) = numbers.get(place * step)
            && low <= *number
            && *number <= last
        {
            some.push(*number)?;
        }
    }
    some.sort_unstable();
    Ok(some.get(some.len() / 2).map_or(last, |number| *number))
}
