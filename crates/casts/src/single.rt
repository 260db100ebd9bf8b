//! Casts a flight.
ghost use Rattle.std.specs.Prelude.{◌≡◌, [], ◌∷◌};
ghost use Rattle.casts.specs.Flights.{sweep_of};
ghost use Rattle.casts.specs.Pieces.{child_sweep as sweep_of_child};
ghost use Rattle.casts.specs.Singles.{piece_cast, casts_of_pieces, child_pieces, turning_answer, casts_of, settled, reported, flown, Flown};

use crate::flight::{Flight, check_flight};
use crate::pieces::{TargetKind, cast_sub_shape, child_sweep, is_piece, is_swept, target_kind};
use crate::refusal::CastRefusal;
use crate::report::{Casts, PieceCasts, Report};
use geometry::{Pose, ShapeKind};
use hosts::{Child, Host, Sweep};
use outcomes::{CastOutcome, PairKind, TurningOutcome};
use short_lists::ShortList;

/// A flight, the host that answers for it, and how its target takes casts.
#[derive(Drop)]
struct Check<'a, H> {
    host: &'a H,
    flight: Flight,
    target: TargetKind,
}

impl<H: Host> Check<'_, H> {
    /// Casts one piece.
    fn cast_piece(&self, shape: u32, sweep: Sweep) -> Option<CastOutcome>
        ensures { result ≡ piece_cast (H.answers self.now.host.now) self.now.flight self.now.target shape sweep }
    {
        let query = self.flight.piece_query(shape, sweep);
        cast_sub_shape(self.host, query, self.target, self.flight.pair, 1.0)
    }

    /// Casts a child that is a piece.
    fn cast_child(&self, child: Child) -> Option<CastOutcome>
        ensures { let h = H.answers self.now.host.now in
            result ≡ piece_cast h self.now.flight self.now.target child.shape (sweep_of_child h (sweep_of self.now.flight) child) }
    {
        let sweep = child_sweep(self.host, self.flight.sweep(), child);
        self.cast_piece(child.shape, sweep)
    }

    /// Casts the children that are pieces, in their order.
    fn cast_children(&self) -> PieceCasts
        ensures { let h = H.answers self.now.host.now in
            result.items ≡ casts_of_pieces h self.now.flight self.now.target (child_pieces h (sweep_of self.now.flight) (h.children self.now.flight.fast)) }
    {
        let mut casts = ShortList::new();
        // a `for`: a list that is copied is filled by `push`
        for child in self.host.children(self.flight.fast) {
            if is_piece(self.host, child.shape) {
                casts.push(self.cast_child(*child));
            }
        }
        casts
    }

    /// Casts a shape that is one piece.
    fn cast_whole(&self) -> PieceCasts
        ensures { result.items ≡ piece_cast (H.answers self.now.host.now) self.now.flight self.now.target self.now.flight.fast (sweep_of self.now.flight) ∷ [] }
    {
        let mut casts = ShortList::new();
        casts.push(self.cast_piece(self.flight.fast, self.flight.sweep()));
        casts
    }

    /// Casts the whole shape once, as one that turns, for one time unit.
    fn cast_turning(&self) -> TurningOutcome
        ensures { result ≡ turning_answer (H.answers self.now.host.now) self.now.flight }
    {
        self.host
            .turning_cast(self.flight.turning_query(), self.flight.pair)
    }

    /// The casts that the flight gets, by the kinds of both shapes.
    fn casts(&self, fast: ShapeKind) -> Casts
        ensures { result ≡ casts_of (H.answers self.now.host.now) self.now.flight fast self.now.target }
    {
        if !is_swept(self.host, self.flight.fast, fast) {
            return Casts::NeverSwept;
        }
        match (fast, self.target) {
            (ShapeKind::Other, _) | (_, TargetKind::Turning) => Casts::Turning(self.cast_turning()),
            (ShapeKind::Compound, _) => Casts::Pieces(self.cast_children()),
            _ => Casts::Pieces(self.cast_whole()),
        }
    }

    /// Where the fast shape stands in the end: a solid impact stops it, a pseudo one does not.
    fn stands(&self, impact: Option<f32>) -> Pose
        ensures { result ≡ settled (H.answers self.now.host.now) self.now.flight impact }
    {
        match (self.flight.pair, impact) {
            (PairKind::Solid, Some(fraction)) => self.host.pose_at(self.flight.sweep(), fraction),
            _ => self.flight.end,
        }
    }

    /// The casts that the flight gets, what the pair takes of them, and where the fast shape then stands.
    fn report(&self, fast: ShapeKind) -> Report
        ensures { let h = H.answers self.now.host.now in result ≡ reported h self.now.flight (casts_of h self.now.flight fast self.now.target) }
    {
        let casts = self.casts(fast);
        let impact = casts.impact(self.flight.pair);
        let stands = self.stands(impact);
        Report {
            casts,
            impact,
            stands,
        }
    }
}

/// Casts a flight, or says why not.
pub fn cast_flight<H: Host>(host: &H, flight: Flight) -> Result<Report, CastRefusal>
    ensures value { result ≡ flown (H.answers host.now) flight }
    ensures law { Flown (H.answers host.now) flight result }
{
    let (fast, target) = check_flight(host, flight)?;
    let check = Check {
        host,
        flight,
        target: target_kind(target),
    };
    Ok(check.report(fast))
}
