//! Why a flight is not cast.
ghost use Rattle.std.specs.Prelude.{◌≡◌, Some};
ghost use Rattle.casts.specs.Refusals.{refusal_number, refusal_text};

use std::error::Error;
use std::fmt;

/// Why a flight is not cast.
#[derive(Clone, Copy, Debug, PartialEq, Eq)]
pub enum CastRefusal {
    NumberOutOfRange,
    PoseNotAdmitted,
    ShapeUnknown,
}

// No `From`: two refusals share a number, which stands for a row of the table and not for the refusal.
impl CastRefusal {
    /// The number of the refusal, as in the table of the orders: 1 for numbers and poses, 3 for shapes.
    pub fn number(self) -> u8
        ensures { result ≡ refusal_number self }
    {
        match self {
            CastRefusal::NumberOutOfRange | CastRefusal::PoseNotAdmitted => 1,
            CastRefusal::ShapeUnknown => 3,
        }
    }
}

impl fmt::Display for CastRefusal {
    ghost output = { λ r. Some (refusal_text r) };

    fn fmt<W: fmt::Write>(&self, f: &mut fmt::Formatter<W>) -> fmt::Result {
        match self {
            CastRefusal::NumberOutOfRange => write!(f, "a number is out of range"),
            CastRefusal::PoseNotAdmitted => write!(f, "a pose is not admitted"),
            CastRefusal::ShapeUnknown => write!(f, "a shape is unknown"),
        }
    }
}

impl Error for CastRefusal {}
