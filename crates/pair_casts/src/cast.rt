//! The casts of a pair, and what it takes of them.
ghost use Rattle.std.specs.Prelude.{◌≡◌, None as Nothing};
ghost use Rattle.search.specs.Searches.{sought};
ghost use Rattle.pair_casts.specs.PairCasts.{sub_shape_taken, turning_taken, taken_by, pair_taken};

use crate::fast_shape::{FastShape, FastShapeKind, FastSubShape};
use crate::target::{Step, Target};
use casts::{TargetKind, cast_sub_shape, target_kind};
use hosts::{CastQuery, Host, TurningQuery};
use outcomes::turning_impact;

/// The casts at a target, which takes them by its kind, under the terms of a step.
#[derive(Drop)]
pub struct PairCast<'a, H> {
    pub host: &'a H,
    pub step: Step,
    pub target: Target,
    pub kind: TargetKind,
}

impl<'a, H: Host> PairCast<'a, H> {
    /// Casts one piece, and answers the fraction that the pair accepts under the cap.
    pub fn cast_sub_shape(&self, sub: FastSubShape, cap: f32) -> Option<f32>
        ensures { result ≡ sub_shape_taken (H.answers self.now.host.now) self.now.step self.now.target self.now.kind sub cap }
    {
        let query = CastQuery {
            fast: sub.shape,
            sweep: sub.sweep,
            target: self.target.shape,
            pose: self.target.pose,
            slop: self.step.slop,
        };
        let outcome = cast_sub_shape(self.host, query, self.kind, self.target.pair, cap)?;
        outcome.impact(self.target.pair, cap)
    }

    /// Casts each piece under the cap that the pieces before it left, so that the last accepted fraction is the least.
    fn cast_sub_shapes(&self, subs: &[FastSubShape], cap: f32) -> Option<f32>
        ensures { result ≡ sought (sub_shape_taken (H.answers self.now.host.now) self.now.step self.now.target self.now.kind) cap Nothing subs.now }
    {
        subs.iter().fold(None, |best, sub| {
            self.cast_sub_shape(*sub, best.unwrap_or(cap)).or(best)
        })
    }

    /// Casts the whole shape once, as one that turns. In no time it goes nowhere.
    pub fn fallback_nonlinear_fraction(&self, fast: &FastShape, cap: f32) -> Option<f32>
        ensures { result ≡ turning_taken (H.answers self.now.host.now) self.now.step self.now.target fast.now.shape fast.now.motion cap }
    {
        if self.step.dt == 0.0 {
            return None;
        }
        let query = TurningQuery {
            fast: fast.shape,
            motion: fast.motion,
            target: self.target.shape,
            pose: self.target.pose,
            dt: self.step.dt,
        };
        let outcome = self.host.turning_cast(query, self.target.pair);
        turning_impact(outcome, self.step.dt, self.target.pair, cap)
    }

    /// Casts a fast shape, by the kinds of both.
    fn cast(&self, fast: &FastShape, cap: f32) -> Option<f32>
        ensures { result ≡ taken_by (H.answers self.now.host.now) self.now.step self.now.target fast.now self.now.kind fast.now.kind cap }
    {
        match (&fast.kind, self.kind) {
            (FastShapeKind::Nonlinear, _) | (_, TargetKind::Turning) => {
                self.fallback_nonlinear_fraction(fast, cap)
            }
            (FastShapeKind::Convex(sub), _) => self.cast_sub_shape(*sub, cap),
            (FastShapeKind::Compound(subs), _) => self.cast_sub_shapes(subs.as_slice(), cap),
        }
    }
}

/// Casts a fast shape at a target, by the kinds of both, and answers the fraction that the pair accepts under the cap: a solid
/// pair one strictly between 0 and the cap, a pseudo pair one of at most the cap, unless the shapes stay apart.
// its parameters apart: it is what makes the `PairCast` of them, once the target's kind is known
pub fn cast_collider_pair<H: Host>(
    host: &H,
    fast: &FastShape,
    target: Target,
    step: Step,
    cap: f32,
) -> Option<f32>
    ensures { result ≡ pair_taken (H.answers host.now) step target fast.now cap }
{
    let pair = PairCast {
        host,
        step,
        target,
        kind: target_kind(host.kind(target.shape)?),
    };
    pair.cast(fast, cap)
}
