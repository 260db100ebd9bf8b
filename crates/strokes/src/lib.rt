//! When a box that moves along a straight stroke meets one that stands still.
#![tactic(auto)]

ghost use Rattle.std.specs.Prelude.{◌≡◌};
ghost use Rattle.strokes.specs.Strokes.{crossing_of, shared_time, meeting_of, touched, answered, answered_if_met, counted_for, sooner_of};
ghost use Rattle.strokes.specs.Laws.{CapKept};

use geometry::{Aabb, Vector};
use numbers::{greater, lesser};
use outcomes::{CastOutcome, PairKind};

/// The fractions of a stroke at which an axis is entered and left.
#[derive(Clone, Copy)]
pub struct Crossing {
    pub enter: f32,
    pub leave: f32,
}

/// When one axis is crossed, for the gaps `ahead` to its near side and `behind` to its far side.
pub fn axis_crossing(ahead: f32, behind: f32, stroke: f32) -> Option<Crossing>
    ensures { result ≡ crossing_of ahead behind stroke }
{
    if 0.0 < stroke {
        Some(Crossing {
            enter: ahead / stroke,
            leave: behind / stroke,
        })
    } else if stroke < 0.0 {
        Some(Crossing {
            enter: behind / stroke,
            leave: ahead / stroke,
        })
    } else if ahead <= 0.0 && 0.0 <= behind {
        Some(Crossing {
            enter: 0.0,
            leave: 1.0,
        })
    } else {
        None
    }
}

/// When all three axes have been entered, unless one has been left by then or the stroke has ended.
fn shared_time(x: Crossing, y: Crossing, z: Crossing) -> Option<f32>
    ensures { result ≡ shared_time x y z }
{
    let time = greater(greater(greater(0.0, x.enter), y.enter), z.enter);
    let is_late = x.leave < time || y.leave < time || z.leave < time || 1.0 < time;
    (!is_late).then_some(time)
}

/// When the box `fast`, moved along the stroke, meets the box `target`.
pub fn meeting(fast: Aabb, target: Aabb, stroke: Vector) -> Option<f32>
    ensures { result ≡ meeting_of fast target stroke }
{
    let x = axis_crossing(
        target.mins.x - fast.maxs.x,
        target.maxs.x - fast.mins.x,
        stroke.x,
    )?;
    let y = axis_crossing(
        target.mins.y - fast.maxs.y,
        target.maxs.y - fast.mins.y,
        stroke.y,
    )?;
    let z = axis_crossing(
        target.mins.z - fast.maxs.z,
        target.maxs.z - fast.mins.z,
        stroke.z,
    )?;
    shared_time(x, y, z)
}

fn touch(time: f32) -> CastOutcome
    ensures { result ≡ touched time }
{
    if 0.0 < time {
        CastOutcome::Hit(time)
    } else {
        CastOutcome::Overlapped(time)
    }
}

/// What a proxy cast answers of a meeting.
pub fn answer(met: Option<f32>, cap: f32) -> CastOutcome
    ensures { result ≡ answered met cap }
{
    answer_if_met(met, cap).unwrap_or(CastOutcome::Separated(cap))
}

/// What a composite cast answers of its first meeting.
pub fn answer_if_met(met: Option<f32>, cap: f32) -> Option<CastOutcome>
    ensures { result ≡ answered_if_met met cap }
{
    met.filter(|time| !(cap < *time)).map(touch)
}

/// A meeting that counts: for a solid pair not one at the start.
pub fn counted(met: Option<f32>, pair: PairKind) -> Option<f32>
    ensures { result ≡ counted_for met pair }
{
    met.filter(|time| pair == PairKind::Pseudo || 0.0 < *time)
}

/// The sooner of two meetings.
pub fn sooner(best: Option<f32>, next: Option<f32>) -> Option<f32>
    ensures { result ≡ sooner_of best next }
{
    match (best, next) {
        (Some(best), Some(next)) => Some(lesser(best, next)),
        _ => best.or(next),
    }
}

/// The time of a meeting is from 0 to 1, and a cast that is known by it keeps the cap law.
pub fn casts_by_meetings_keep_the_cap_law()
    ensures { CapKept }
{}
