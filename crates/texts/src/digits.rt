//! Whole numbers by their digits.
ghost use Rattle.std.specs.Prelude.{◌≡◌, ◌≤◌, IfSome};
ghost use Rattle.texts.specs.Digits.{radix_of, digit_of, read_digits, whole_of, shape_of};

use crate::trouble::Trouble;

/// Where values stop: what is above is not told apart.
const CAP: u64 = 4_294_967_296;

/// The base that digits are read in.
#[derive(Clone, Copy, PartialEq, Eq, Debug)]
pub enum Base {
    Decimal,
    Hexadecimal,
}

impl Base {
    fn radix(self) -> u32
        ensures value { result ≡ radix_of self }
        ensures low { 10 ≤ result }
        ensures high { result ≤ 16 }
    {
        match self {
            Base::Decimal => 10,
            Base::Hexadecimal => 16,
        }
    }
}

/// The value of a digit of the base, in either case.
fn digit(b: u8, base: Base) -> Option<u64>
    ensures value { result ≡ digit_of (radix_of base) b }
    ensures bound { IfSome result (λ d. d ≤ 15) }
{
    char::from(b).to_digit(base.radix()).map(u64::from)
}

/// The value of the digits that go on from `start`, up to the cap; none where a byte is no digit.
pub(crate) fn value(text: &[u8], base: Base, start: u64) -> Option<u64>
    requires { start ≤ 4294967296 }
    ensures value { result ≡ read_digits (radix_of base) start text.now }
    ensures bound { IfSome result (λ n. n ≤ 4294967296) }
{
    let mut sum = start;
    for b in text {
        let digit = digit(*b, base)?;
        sum = (sum * u64::from(base.radix()) + digit).min(CAP);
    }
    Some(sum)
}

/// The value of 1 to `most` digits, where it has at most 32 bits.
pub(crate) fn whole(text: &[u8], base: Base, most: usize) -> Option<u32>
    ensures { result ≡ whole_of (radix_of base) most text.now }
{
    if text.is_empty() || most < text.len() {
        return None;
    }
    let value = value(text, base, 0)?;
    u32::try_from(value).ok()
}

/// A shape number: 1 to 10 decimal digits, at most 4,294,967,295.
pub fn shape(text: &[u8]) -> Result<u32, Trouble>
    ensures { result ≡ shape_of text.now }
{
    whole(text, Base::Decimal, 10).ok_or(Trouble::NotAShape)
}
