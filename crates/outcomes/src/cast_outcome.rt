//! What a proxy or composite cast answers.
ghost use Rattle.std.specs.Prelude.{◌≡◌};
ghost use Rattle.outcomes.specs.Outcomes.{status_number, fraction_of};
ghost use Rattle.outcomes.specs.Impacts.{solid_of, pseudo_of, taken_of};

use crate::pair_kind::{PairKind, between, within};

/// How a cast ended, with the fraction of the sweep at which it did.
#[derive(Clone, Copy, PartialEq, Debug)]
pub enum CastOutcome {
    /// The shapes meet there.
    Hit(f32),
    /// The search gave up there.
    Failed(f32),
    /// The shapes overlap there.
    Overlapped(f32),
    /// The shapes stay apart up to there.
    Separated(f32),
}

impl CastOutcome {
    /// The number that stands for the status outside: 0 to 3.
    // no `From`: the number says nothing of the fraction
    pub fn number(self) -> u8
        ensures { result ≡ status_number self }
    {
        match self {
            CastOutcome::Hit(_) => 0,
            CastOutcome::Failed(_) => 1,
            CastOutcome::Overlapped(_) => 2,
            CastOutcome::Separated(_) => 3,
        }
    }

    /// The fraction that each status carries.
    pub fn fraction(self) -> f32
        ensures { result ≡ fraction_of self }
    {
        match self {
            CastOutcome::Hit(f)
            | CastOutcome::Failed(f)
            | CastOutcome::Overlapped(f)
            | CastOutcome::Separated(f) => f,
        }
    }

    /// What a solid pair takes of it: any status, strictly between 0 and the cap.
    pub fn solid_impact(self, cap: f32) -> Option<f32>
        ensures { result ≡ solid_of self cap }
    {
        between(self.fraction(), cap)
    }

    /// What a pseudo pair takes of it: not where the shapes stay apart, and at most the cap.
    pub fn pseudo_impact(self, cap: f32) -> Option<f32>
        ensures { result ≡ pseudo_of self cap }
    {
        match self {
            CastOutcome::Hit(f) | CastOutcome::Failed(f) | CastOutcome::Overlapped(f) => {
                within(f, cap)
            }
            CastOutcome::Separated(_) => None,
        }
    }

    /// What a pair of the given kind takes of it.
    pub fn impact(self, pair: PairKind, cap: f32) -> Option<f32>
        ensures { result ≡ taken_of pair self cap }
    {
        match pair {
            PairKind::Solid => self.solid_impact(cap),
            PairKind::Pseudo => self.pseudo_impact(cap),
        }
    }
}
