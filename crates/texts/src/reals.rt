//! Numbers: the bits of a single-precision number, or a decimal.
ghost use Rattle.std.specs.Prelude.{◌≡◌, ◌^◌, ◌≤◌, ◌++◌, pos};
ghost use Rattle.std.specs.Float.Ieee.{of_int};
ghost use Rattle.std.specs.Float.{binary32};
ghost use Rattle.texts.specs.Digits.{read_digits};
ghost use Rattle.texts.specs.Reals.{quotient_of, unsigned_of, bits_of, number_of};

use crate::cuts::{Until, front, past, skip};
use crate::digits::{Base, value, whole};
use crate::trouble::Trouble;
use std::num::{f32_from_bits_with_nan, nearest_u32_to_f32};

/// The point of a decimal.
const POINT: Until = Until::Mark(b'.');

/// The powers of ten that single precision has exactly.
const TENS: [f32; 11] = [
    1.0,
    10.0,
    100.0,
    1000.0,
    10000.0,
    100000.0,
    1000000.0,
    10000000.0,
    100000000.0,
    1000000000.0,
    10000000000.0,
];

fn power_of_ten(k: usize) -> f32
    requires { k ≤ 10 }
    ensures { result ≡ of_int binary32 (pos (10 ^ k)) }
{
    TENS[k]
}

/// A whole number divided by a power of ten, where both are exact.
fn quotient(digits: u64, places: usize) -> Result<f32, Trouble>
    ensures { result ≡ quotient_of digits places }
{
    if digits <= 16_777_216 && places <= 10 {
        Ok(nearest_u32_to_f32(digits as u32) / power_of_ten(places))
    } else {
        Err(Trouble::TooManyDigits)
    }
}

/// The value of all digits together; none where a byte is no digit.
fn digits(units: &[u8], fraction: &[u8]) -> Option<u64>
    ensures { result ≡ read_digits 10 0 (units.now ++ fraction.now) }
{
    value(fraction, Base::Decimal, value(units, Base::Decimal, 0)?)
}

/// A decimal without a sign.
fn unsigned(text: &[u8]) -> Result<f32, Trouble>
    ensures { result ≡ unsigned_of text.now }
{
    let units = front(text, POINT);
    let tail = past(text, POINT);
    // digits stand before the point and, where there is a point, after it
    if units.is_empty() || tail.len() == 1 {
        return Err(Trouble::NotANumber);
    }
    let fraction = skip(tail, 1);
    let digits = digits(units, fraction).ok_or(Trouble::NotANumber)?;
    quotient(digits, fraction.len())
}

/// The number with the given bits, 1 to 8 hexadecimal digits.
fn bits(text: &[u8]) -> Result<f32, Trouble>
    ensures { result ≡ bits_of text.now }
{
    let bits = whole(text, Base::Hexadecimal, 8).ok_or(Trouble::NotANumber)?;
    let number = f32_from_bits_with_nan(bits);
    if number.is_nan() {
        Err(Trouble::NotANumber)
    } else {
        Ok(number)
    }
}

/// A number: `0x` and its bits, or a decimal.
pub fn number(text: &[u8]) -> Result<f32, Trouble>
    ensures { result ≡ number_of text.now }
{
    if let Some(digits) = text.strip_prefix(b"0x") {
        bits(digits)
    } else if let Some(decimal) = text.strip_prefix(b"-") {
        let size = unsigned(decimal)?;
        Ok(-size)
    } else {
        unsigned(text)
    }
}
