//! Why an order is refused.
ghost use Rattle.std.specs.Prelude.{◌≡◌};
ghost use Rattle.records.specs.Faults.{fault_number, fault_place, raised};

use std::error::Error;
use std::fmt;

/// The nine refusals, in the order of their numbers. A refusal changes nothing.
#[derive(Clone, Copy, PartialEq, Eq, Debug)]
pub enum Fault {
    /// A number is out of range, or a pose is not admitted.
    OutOfRange,
    /// The handle at this place is not live.
    NotLive(usize),
    /// The host does not know the shape.
    ShapeUnknown,
    /// A Fixed body is aimed, or one that is not Dynamic is to be marked.
    NotMovable,
    /// A body that is to be lifted has colliders.
    HasColliders,
    /// The handle at this place stands earlier in the list.
    Repeated(usize),
    /// What is lent breaks a rule.
    Broken,
    /// There is no slot left, or no place in a list.
    Full,
    /// A store or a space is too short.
    Short,
}

impl Fault {
    /// The number that stands for it outside: 1 to 9.
    // no `From`: the number says nothing of the place
    pub fn number(self) -> u8
        ensures { result ≡ fault_number self }
    {
        match self {
            Fault::OutOfRange => 1,
            Fault::NotLive(_) => 2,
            Fault::ShapeUnknown => 3,
            Fault::NotMovable => 4,
            Fault::HasColliders => 5,
            Fault::Repeated(_) => 6,
            Fault::Broken => 7,
            Fault::Full => 8,
            Fault::Short => 9,
        }
    }

    /// The place in a list that is at fault, and 0 where there is none.
    // no `Option`: 0 is what C is told where there is none
    pub fn place(self) -> usize
        ensures { result ≡ fault_place self }
    {
        match self {
            Fault::NotLive(place) | Fault::Repeated(place) => place,
            _ => 0,
        }
    }
}

impl fmt::Display for Fault {
    ghost use Rattle.std.specs.Prelude.{Some};
    ghost use Rattle.records.specs.Faults.{fault_text};

    ghost output = { λ fault. Some (fault_text fault) };

    fn fmt<W: fmt::Write>(&self, f: &mut fmt::Formatter<W>) -> fmt::Result {
        match self {
            Fault::OutOfRange => write!(f, "a number is out of range, or a pose is not admitted"),
            Fault::NotLive(place) => write!(f, "the handle at place {place} is not live"),
            Fault::ShapeUnknown => write!(f, "the host does not know the shape"),
            Fault::NotMovable => write!(f, "the body cannot be aimed or marked"),
            Fault::HasColliders => write!(f, "the body has colliders"),
            Fault::Repeated(place) => write!(f, "the handle at place {place} stands earlier too"),
            Fault::Broken => write!(f, "what is lent breaks a rule"),
            Fault::Full => write!(f, "there is no slot left, or no place in a list"),
            Fault::Short => write!(f, "a store or a space is too short"),
        }
    }
}

impl Error for Fault {}

/// What the slot store refuses, the bench refuses.
impl From<slots::Fault> for Fault {
    ghost from_gives = { λ e r. r ≡ raised e };

    fn from(fault: slots::Fault) -> Fault {
        match fault {
            slots::Fault::Full => Fault::Full,
            slots::Fault::NotLive => Fault::NotLive(0),
            slots::Fault::Broken => Fault::Broken,
        }
    }
}
