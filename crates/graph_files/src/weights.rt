//! Weights: decimals with at most one point, in units of a power of ten.
//!
//! 1. No weight is a float: digits are counted in whole units, and what would be rounded is refused, or cut where that
//!    is asked for.

ghost use Rattle.std.specs.Prelude.{◌≡◌, ◌≤◌, ◌<◌, ◌+◌, ◌*◌, ◌^◌, ◌++◌, true, MatchOption};
ghost use Rattle.std.specs.List.{list_all, position};
ghost use Rattle.graph_model.specs.declared.limits.TheConstants.{MAX_WEIGHT};
ghost use Rattle.graphalytics_io.specs.Numbers.{is_digit, is_number, number_of};
ghost use Rattle.graph_files.specs.Weights.{is_point, is_zero, whole_part, fraction_part, decimal_of};

use crate::refusal::What;
use graph_model::MAX_WEIGHT;
use graphalytics_io::{NumberFault, read_number};

/// What the weights of an edge file are.
#[derive(Clone, Copy, Debug, PartialEq, Eq)]
pub enum Weights {
    /// Every weight is 1. A third field may stand on a line, and isn't read.
    Ones,
    /// Each line has a decimal, in units of `10 ^ -digits`. What stands after its last digit that is read has to be
    /// zeros; with `cut` it may be any digits, and is dropped.
    Units { digits: u8, cut: bool },
}

/// Reads a weight.
pub(crate) fn read_decimal(field: &[u8], digits: u8, cut: bool) -> Result<u64, What>
    requires { digits ≤ 9 }
    ensures { result ≡ decimal_of digits cut field.now }
{
    let (whole, fraction) = parts_of(field);
    if !are_parts(whole, fraction) {
        return Err(What::NotANumber);
    }
    let read = fraction.len().min(digits as usize);
    let (kept, dropped) = fraction.split_at(read);
    if !cut && !are_zeros(dropped) {
        return Err(What::WeightTooFine);
    }
    match units_of(whole, digits, kept, digits - read as u8) {
        Some(units) => Ok(units),
        None => Err(What::WeightTooLarge),
    }
}

/// The sum of two numbers, each with so many zeros after its digits, up to the greatest weight.
fn units_of(whole: &[u8], zeros: u8, fraction: &[u8], missing: u8) -> Option<u64>
    requires whole { list_all is_digit whole.now ≡ true }
    requires fraction { list_all is_digit fraction.now ≡ true }
    requires zeros { zeros ≤ 9 }
    requires missing { missing ≤ 9 }
    ensures { MatchOption result (MAX_WEIGHT < number_of whole.now * 10 ^ zeros + number_of fraction.now * 10 ^ missing)
        (λ units. (units ≡ number_of whole.now * 10 ^ zeros + number_of fraction.now * 10 ^ missing)
        × (units ≤ MAX_WEIGHT)) }
{
    let units = scaled(whole, zeros)? + scaled(fraction, missing)?;
    if units <= MAX_WEIGHT {
        Some(units)
    } else {
        None
    }
}

/// What stands before the first point of a field, and what stands after it.
fn parts_of(field: &[u8]) -> (&[u8], &[u8])
    ensures whole { result.0.now ≡ whole_part field.now }
    ensures fraction { result.1.now ≡ fraction_part field.now }
{
    match first_point(field) {
        Some(end) => (&field[..end], &field[end + 1..]),
        None => (field, &field[field.len()..]),
    }
}

fn first_point(field: &[u8]) -> Option<usize>
    ensures { result ≡ position is_point field.now }
{
    field.iter().position(|byte| *byte == b'.')
}

/// Whether these are the parts of a decimal: digits alone, and one at least.
fn are_parts(whole: &[u8], fraction: &[u8]) -> bool
    ensures { result ≡ is_number (whole.now ++ fraction.now) }
{
    if !are_digits(whole) || !are_digits(fraction) {
        return false;
    }
    0 < whole.len() + fraction.len()
}

fn are_digits(part: &[u8]) -> bool
    ensures { result ≡ list_all is_digit part.now }
{
    part.iter().all(|byte| b'0' <= *byte && *byte <= b'9')
}

fn are_zeros(part: &[u8]) -> bool
    ensures { result ≡ list_all is_zero part.now }
{
    part.iter().all(|byte| *byte == b'0')
}

/// The number of some digits with so many zeros after them, up to the greatest weight.
fn scaled(digits: &[u8], zeros: u8) -> Option<u64>
    requires digits { list_all is_digit digits.now ≡ true }
    requires zeros { zeros ≤ 9 }
    ensures { MatchOption result (MAX_WEIGHT < number_of digits.now * 10 ^ zeros)
        (λ units. (units ≡ number_of digits.now * 10 ^ zeros) × (units ≤ MAX_WEIGHT)) }
{
    let units = value_of(digits)?.checked_mul(power_of_ten(zeros))?;
    if units <= MAX_WEIGHT {
        Some(units)
    } else {
        None
    }
}

/// The number of some digits, or of none, up to the greatest weight.
fn value_of(digits: &[u8]) -> Option<u64>
    requires { list_all is_digit digits.now ≡ true }
    ensures { MatchOption result (MAX_WEIGHT < number_of digits.now) (λ number. number ≡ number_of digits.now) }
{
    match read_number(digits, MAX_WEIGHT) {
        Ok(number) => Some(number),
        Err(NumberFault::NotANumber) => Some(0),
        Err(NumberFault::TooLarge) => None,
    }
}

fn power_of_ten(exponent: u8) -> u64
    requires { exponent ≤ 9 }
    ensures { result ≡ 10 ^ exponent }
{
    10u64.pow(exponent as u32)
}
