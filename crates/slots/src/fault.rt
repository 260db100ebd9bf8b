//! Why a call refuses.
ghost use Rattle.std.specs.Prelude.{Some};

use std::error::Error;
use std::fmt;

/// Why a call refuses. A call that refuses changes nothing.
#[derive(Clone, Copy, PartialEq, Eq, Debug)]
pub enum Fault {
    /// No slot is free or unused.
    Full,
    /// The handle names no record.
    NotLive,
    /// The lent memory breaks the rules of the store.
    Broken,
}

impl fmt::Display for Fault {
    ghost use Rattle.slots.specs.Faults.{text_of};

    ghost output = { λ fault. Some (text_of fault) };

    fn fmt<W: fmt::Write>(&self, f: &mut fmt::Formatter<W>) -> fmt::Result {
        match self {
            Fault::Full => write!(f, "no slot is free or unused"),
            Fault::NotLive => write!(f, "the handle names no record"),
            Fault::Broken => write!(f, "the memory breaks the rules of the store"),
        }
    }
}

impl Error for Fault {}
