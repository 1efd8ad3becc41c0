//! Reading a number from a text of digits.

ghost use Rattle.std.specs.Prelude.{◌≡◌, ◌≤◌, IfOk};
ghost use Rattle.vip_byte.specs.Number.{decimal_number, hex_number, number};

use thiserror::Error;

/// The greatest machine cycle that a text or the command line may name (this project's profile).
pub const MOST_CYCLE: u64 = 4_000_000_000;

/// Why a text is no number, or not one that is asked for.
#[derive(Clone, Copy, Debug, Error)]
pub enum NumFault {
    /// The text has no bytes.
    #[error("Empty")]
    Empty,
    /// Some byte is no digit of the base; a sign and a blank are none.
    #[error("BadDigit")]
    BadDigit,
    /// All bytes are digits, and the value is above the greatest that is allowed.
    #[error("TooLarge")]
    TooLarge,
}

/// The value of a text of decimal digits, the highest first, of any length and with any number of leading zeros, where it
/// is at most `most`; else the first fault of `NumFault` in its order.
pub fn read_decimal(text: &[u8], most: u64) -> Result<u64, NumFault>
    ensures value { result ≡ decimal_number text.now most }
    ensures within { IfOk result (λ value. value ≤ most) }
{
    read_number(text, 10, most)
}

/// As `read_decimal` for hexadecimal digits, whose letters may be of either case.
pub fn read_hex(text: &[u8], most: u64) -> Result<u64, NumFault>
    ensures value { result ≡ hex_number text.now most }
    ensures within { IfOk result (λ value. value ≤ most) }
{
    read_number(text, 16, most)
}

// All digits are looked at, also where the value is too large already, since a byte that is no digit comes first. A value that is too
// large is kept as the least of these.
fn read_number(text: &[u8], base: u32, most: u64) -> Result<u64, NumFault>
    requires least_base { 2 ≤ base }
    requires most_base { base ≤ 36 }
    ensures value { result ≡ number base text.now most }
    ensures within { IfOk result (λ value. value ≤ most) }
{
    if text.is_empty() {
        return Err(NumFault::Empty);
    }
    let too_large = u128::from(most) + 1;
    let mut value = 0;
    for byte in text {
        let Some(digit) = char::from(*byte).to_digit(base) else {
            return Err(NumFault::BadDigit);
        };
        value = (value * u128::from(base) + u128::from(digit)).min(too_large);
    }
    if value == too_large {
        Err(NumFault::TooLarge)
    } else {
        Ok(value as u64)
    }
}
