//! Whether numbers differ, by sorting them.
//!
//! 1. Most files have their ids in order, so it is first looked whether the numbers rise as they stand, which needs no
//!    sorting.
//! 2. Numbers of edges stand in no order, and there are many: several threads sort those of a range each.

ghost use Rattle.std.specs.Prelude.{◌≡◌, ◌==◌, ◌↔◌, ℕ, IfOk, true};
ghost use Rattle.std.specs.List.{IsDistinct};
ghost use Rattle.std.specs.List.Sorted.{IsStrictlyIncreasing};

use crate::ranges::differ;
use graphalytics_io::cuts_for;
use items::NoMemory;
use std::alloc::Global;
use std::thread::Threads;

/// Fewer numbers aren't worth a thread.
const LEAST_NUMBERS: usize = 65536;

/// Whether no number stands twice. Sorts them, unless they rise as they stand.
pub fn are_distinct(numbers: Vec<u64>) -> bool
    ensures { (result ≡ true) ↔ IsDistinct (λ (x y : ℕ). x == y) numbers.items }
{
    let mut numbers = numbers;
    if rises(numbers.as_slice()) {
        return true;
    }
    numbers.sort_unstable();
    rises(numbers.as_slice())
}

/// The same, where several threads share the numbers out by their size.
pub fn are_distinct_by_threads<R: Threads + Sync>(
    rt: &R,
    alloc: Global,
    numbers: &[u64],
) -> Result<bool, NoMemory>
    ensures { IfOk result (λ distinct. (distinct ≡ true) ↔ IsDistinct (λ (x y : ℕ). x == y) numbers.now) }
{
    if rises(numbers) {
        return Ok(true);
    }
    let cuts = if numbers.len() < LEAST_NUMBERS {
        0
    } else {
        cuts_for(rt).saturating_sub(1)
    };
    differ(rt, alloc, numbers, 0, u64::MAX, cuts)
}

/// Whether each number is below the next.
fn rises(numbers: &[u64]) -> bool
    ensures { (result ≡ true) ↔ IsStrictlyIncreasing numbers.now }
{
    'places: for i in 1..numbers.len() {
        if numbers[i] <= numbers[i - 1] {
            return false;
        }
    }
    true
}
