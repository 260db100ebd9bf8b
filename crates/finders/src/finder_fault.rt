//! Why a finder refuses a collider.
use std::error::Error;
use std::fmt;

/// Why a collider is not held.
#[derive(Clone, Copy, Debug, PartialEq, Eq)]
pub enum FinderFault {
    /// The finder has no such slot.
    PastTheLastSlot,
    /// The slot holds nothing, and as many others hold something as may.
    Full,
}

impl fmt::Display for FinderFault {
    ghost use Rattle.std.specs.Prelude.{Some};
    ghost use Rattle.finders.specs.Faults.{fault_text};

    ghost output = { λ fault. Some (fault_text fault) };

    fn fmt<W: fmt::Write>(&self, f: &mut fmt::Formatter<W>) -> fmt::Result {
        f.write_str(match self {
            FinderFault::PastTheLastSlot => "the finder has no such slot",
            FinderFault::Full => "the finder is full",
        })
    }
}

impl Error for FinderFault {}
