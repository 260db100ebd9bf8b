//! What a single check found.
ghost use Rattle.std.specs.Prelude.{◌≡◌, fold, None};
ghost use Rattle.strokes.specs.Strokes.{sooner_of};
ghost use Rattle.casts.specs.Reports.{took_of, impact_of};

use geometry::Pose;
use hosts::children::MOST_CHILDREN;
use outcomes::{CastOutcome, PairKind, TurningOutcome, turning_impact};
use short_lists::ShortList;
use strokes::sooner;

/// One cast of each piece, in order.
pub type PieceCasts = ShortList<Option<CastOutcome>, MOST_CHILDREN>;

/// The casts of a flight.
#[derive(Clone, Copy)]
pub enum Casts {
    /// The fast shape is never swept.
    NeverSwept,
    /// One turning cast of the whole.
    Turning(TurningOutcome),
    /// One cast of each piece, in order.
    Pieces(PieceCasts),
}

/// The casts of a flight, the pair's impact, and where the fast shape then stands.
#[derive(Clone, Copy)]
pub struct Report {
    pub casts: Casts,
    pub impact: Option<f32>,
    pub stands: Pose,
}

/// What a pair takes of a piece's cast, at the cap 1.
fn taken(outcome: Option<CastOutcome>, pair: PairKind) -> Option<f32>
    ensures { result ≡ took_of pair outcome }
{
    outcome?.impact(pair, 1.0)
}

/// The soonest of what a pair takes of the pieces' casts.
fn soonest(outcomes: &[Option<CastOutcome>], pair: PairKind) -> Option<f32>
    ensures { result ≡ fold (λ best outcome. sooner_of best (took_of pair outcome)) None outcomes.now }
{
    outcomes
        .iter()
        .fold(None, |best, outcome| sooner(best, taken(*outcome, pair)))
}

impl Casts {
    /// What a pair takes of them.
    pub(crate) fn impact(&self, pair: PairKind) -> Option<f32>
        ensures { result ≡ impact_of pair self.now }
    {
        match self {
            Casts::NeverSwept => None,
            Casts::Turning(outcome) => turning_impact(*outcome, 1.0, pair, 1.0),
            Casts::Pieces(outcomes) => soonest(outcomes.as_slice(), pair),
        }
    }
}
