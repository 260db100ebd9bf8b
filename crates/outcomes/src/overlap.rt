//! What an overlap test answers.
ghost use Rattle.std.specs.Prelude.{◌≡◌};
ghost use Rattle.outcomes.specs.Outcomes.{overlap_number, is_yes};

use crate::unsupported::Unsupported;

/// Whether two shapes overlap, or that the host cannot tell.
pub type Overlap = Result<bool, Unsupported>;

/// The number that stands for it outside: 0 to 2.
// a function, since neither `Result` nor `u8` is of this crate
pub fn overlap_number(overlap: Overlap) -> u8
    ensures { result ≡ overlap_number overlap }
{
    match overlap {
        Ok(false) => 0,
        Ok(true) => 1,
        Err(Unsupported) => 2,
    }
}

/// Whether the answer is yes; what the host cannot tell is not yes.
pub fn is_yes(overlap: Overlap) -> bool
    ensures { result ≡ is_yes overlap }
{
    overlap == Ok(true)
}
