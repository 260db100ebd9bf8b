//! A single check: one fast shape on its way, and one target.
ghost use Rattle.std.specs.Prelude.{◌≡◌};
ghost use Rattle.casts.specs.Flights.{ranged_flight, admitted_flight, sweep_of, motion_of, query_of, turning_query, checked};

use crate::refusal::CastRefusal;
use geometry::{Pose, ShapeKind, Vector};
use hosts::{CastQuery, Host, Motion, Sweep, TurningQuery};
use numbers::RANGE;
use outcomes::PairKind;

/// A fast shape on its way from one pose to another, a target that stands still, and how the pair judges a cast.
#[derive(Clone, Copy)]
pub struct Flight {
    pub fast: u32,
    pub start: Pose,
    pub end: Pose,
    pub target: u32,
    pub pose: Pose,
    pub pair: PairKind,
}

impl Flight {
    fn in_range(self) -> bool
        ensures { result ≡ ranged_flight self }
    {
        self.start.in_range(RANGE) && self.end.in_range(RANGE) && self.pose.in_range(RANGE)
    }

    fn is_admitted<H: Host>(self, host: &H) -> bool
        ensures { result ≡ admitted_flight (H.answers host.now) self }
    {
        host.admits(self.start) && host.admits(self.end) && host.admits(self.pose)
    }

    /// The way of the fast shape, about its own origin.
    pub fn sweep(self) -> Sweep
        ensures { result ≡ sweep_of self }
    {
        Sweep {
            start: self.start,
            end: self.end,
            centre: Vector::zero(),
        }
    }

    /// The same way as a motion of one time unit that does not turn.
    pub fn motion(self) -> Motion
        ensures { result ≡ motion_of self }
    {
        Motion {
            start: self.start,
            centre: Vector::zero(),
            linear: self.end.translation.minus(self.start.translation),
            angular: Vector::zero(),
        }
    }

    /// The question for one piece of the fast shape.
    pub(crate) fn piece_query(self, shape: u32, sweep: Sweep) -> CastQuery
        ensures { result ≡ query_of self shape sweep }
    {
        CastQuery {
            fast: shape,
            sweep,
            target: self.target,
            pose: self.pose,
            slop: 0.0,
        }
    }

    /// The question for the whole fast shape, as one that turns, for one time unit.
    pub(crate) fn turning_query(self) -> TurningQuery
        ensures { result ≡ turning_query self }
    {
        TurningQuery {
            fast: self.fast,
            motion: self.motion(),
            target: self.target,
            pose: self.pose,
            dt: 1.0,
        }
    }
}

/// The kinds of both shapes, where every number is in range, every pose admitted and both shapes are known; tested in this
/// order.
pub fn check_flight<H: Host>(
    host: &H,
    flight: Flight,
) -> Result<(ShapeKind, ShapeKind), CastRefusal>
    ensures { result ≡ checked (H.answers host.now) flight }
{
    if !flight.in_range() {
        return Err(CastRefusal::NumberOutOfRange);
    }
    if !flight.is_admitted(host) {
        return Err(CastRefusal::PoseNotAdmitted);
    }
    let fast = host.kind(flight.fast).ok_or(CastRefusal::ShapeUnknown)?;
    let target = host.kind(flight.target).ok_or(CastRefusal::ShapeUnknown)?;
    Ok((fast, target))
}
