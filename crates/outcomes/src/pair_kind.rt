//! The two kinds of pairs.
ghost use Rattle.std.specs.Prelude.{◌≡◌};
ghost use Rattle.outcomes.specs.Impacts.{strictly, upto, taken_at};

use std::fmt;

/// How a pair of colliders judges a cast: a solid one stops the fast body, a pseudo one (with a sensor, or with solver
/// groups that disagree) is only noted.
#[derive(Clone, Copy, PartialEq, Eq, Debug)]
pub enum PairKind {
    Solid,
    Pseudo,
}

/// The fraction, where it lies strictly between 0 and the cap.
pub fn between(fraction: f32, cap: f32) -> Option<f32>
    ensures { result ≡ strictly fraction cap }
{
    (0.0 < fraction && fraction < cap).then_some(fraction)
}

/// The fraction, where it is at most the cap.
pub fn within(fraction: f32, cap: f32) -> Option<f32>
    ensures { result ≡ upto fraction cap }
{
    (fraction <= cap).then_some(fraction)
}

impl PairKind {
    /// What a pair of this kind takes of a fraction.
    pub fn taken(self, fraction: f32, cap: f32) -> Option<f32>
        ensures { result ≡ taken_at self fraction cap }
    {
        match self {
            PairKind::Solid => between(fraction, cap),
            PairKind::Pseudo => within(fraction, cap),
        }
    }
}

impl fmt::Display for PairKind {
    ghost use Rattle.std.specs.Prelude.{Some};
    ghost use Rattle.outcomes.specs.Outcomes.{pair_name};

    ghost output = { λ pair. Some (pair_name pair) };

    fn fmt<W: fmt::Write>(&self, f: &mut fmt::Formatter<W>) -> fmt::Result {
        match self {
            PairKind::Solid => write!(f, "solid"),
            PairKind::Pseudo => write!(f, "pseudo"),
        }
    }
}
