//! Fields that are numbers: one or more ASCII digits, with any count of leading zeros.
//!
//! A value of `2 ^ 64` or more is kept as `None`, so no count of digits overflows.

ghost use Rattle.std.specs.Prelude.{◌≡◌};
ghost use Rattle.graphalytics_io.specs.Numbers.{number_within, WithDigit};

/// Why a field is no number up to a limit.
#[derive(Clone, Copy, Debug, PartialEq, Eq)]
pub enum NumberFault {
    /// The field isn't one or more ASCII digits.
    NotANumber,
    /// The number is above the limit.
    TooLarge,
}

/// Reads a field that is a number up to a limit. It may have any count of digits.
pub fn read_number(field: &[u8], limit: u64) -> Result<u64, NumberFault>
    ensures { result ≡ number_within limit field.now }
{
    if field.is_empty() {
        return Err(NumberFault::NotANumber);
    }
    let mut value = Some(0);
    'digits: for i in 0..field.len() {
        let byte = field[i];
        if !byte.is_ascii_digit() {
            return Err(NumberFault::NotANumber);
        }
        value = with_digit(value, byte - b'0');
    }
    let Some(number) = value else {
        return Err(NumberFault::TooLarge)
    };
    if number <= limit {
        Ok(number)
    } else {
        Err(NumberFault::TooLarge)
    }
}

/// A number with one more digit, or `None` where that is `2 ^ 64` or more.
fn with_digit(number: Option<u64>, digit: u8) -> Option<u64>
    ensures { WithDigit number digit result }
{
    number?.checked_mul(10)?.checked_add(digit as u64)
}
