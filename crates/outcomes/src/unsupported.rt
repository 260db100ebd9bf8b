//! What a host answers where it cannot tell.
use std::error::Error;
use std::fmt;

/// The host does not do this.
#[derive(Clone, Copy, PartialEq, Eq, Debug)]
pub struct Unsupported;

impl fmt::Display for Unsupported {
    ghost use Rattle.std.specs.Prelude.{Some, codes};

    ghost output = { λ u. Some (codes "unsupported") };

    fn fmt<W: fmt::Write>(&self, f: &mut fmt::Formatter<W>) -> fmt::Result {
        write!(f, "unsupported")
    }
}

impl Error for Unsupported {}
