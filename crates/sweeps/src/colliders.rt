//! The colliders of one swept body.
//!
//! The space for candidates, the fraction and the space for hits go side by side, as in `candidates`.
ghost use Rattle.std.specs.Prelude.{◌≡◌, length, Some as Present};
ghost use Rattle.spaces.specs.Spaces.{state, SameSpace};
ghost use Rattle.records.specs.Lists.{listed as listed_handles};
ghost use Rattle.pairs.specs.Pairs.{fast_of};
ghost use Rattle.sweeps.specs.Env.{hall_of};
ghost use Rattle.sweeps.specs.Sweeps.{sweep_of, swept_box, shape_swept, collider_swept, takes_part, part_by, part_swept, body_swept};

use crate::candidates::FastSweep;
use crate::hall::{Hall, PseudoHit, PseudoHitMode};
use finders::{Filter, Finder};
use geometry::{Aabb, ColliderHandle, Pose, RigidBodyHandle};
use hosts::{Host, Sweep};
use pair_casts::FastShape;
use pairs::FastCollider;
use records::{Collider, RigidBody};
use slots::get;
use spaces::Space;

/// The way of a collider that stands at a relative pose of its body.
fn collider_sweep<H: Host>(host: &H, body: &RigidBody, relative: Pose) -> Sweep
    ensures { result ≡ sweep_of (H.answers host.now) body.now relative }
{
    Sweep {
        start: host.product(body.position, relative),
        end: host.product(body.next, relative),
        centre: host.inverse_point(relative, body.centre),
    }
}

/// The box that holds a shape at both ends of its way.
fn swept_aabb<H: Host>(host: &H, shape: u32, sweep: Sweep) -> Aabb
    ensures { result ≡ swept_box (H.answers host.now) shape sweep }
{
    host.aabb(shape, sweep.start)
        .merged(host.aabb(shape, sweep.end))
}

/// Whether a collider is swept at all: not a disabled one, and no sensor in a sweep that ignores them.
fn takes_part(mode: PseudoHitMode, collider: &Collider) -> bool
    ensures { result ≡ takes_part mode collider.now }
{
    match mode {
        PseudoHitMode::Record(_) => collider.is_enabled(),
        PseudoHitMode::Ignore => collider.is_enabled() && !collider.is_sensor(),
    }
}

impl<'a, H: Host, D: Finder, F: Filter> FastSweep<'a, H, D, F> {
    /// Asks the finder once for what lies on the way, and casts at it.
    fn sweep_along(
        &self,
        sweep: Sweep,
        candidates: &mut [ColliderHandle],
        reached: f32,
        hits: &mut Space<PseudoHit>,
    ) -> f32
        ensures same_space { SameSpace hits.old hits.new }
        ensures value { (state hits.new, result) ≡ shape_swept (hall_of H.Host D.Finder F.Filter self.now.hall.now) (length candidates.old) self.now.mode (fast_of self.now.fast) sweep (Present self.now.shape.now) (state hits.old, reached) }
    {
        let hall = self.hall;
        let aabb = swept_aabb(hall.host, self.fast.collider.shape, sweep);
        let count = hall.finder.report(aabb, hall.step.prediction, candidates);
        self.handle_candidates(&candidates[..count], reached, hits)
    }
}

/// A body that is swept from its position to its next position, among what a hall has.
#[derive(Drop)]
pub struct BodySweep<'a, H, D, F> {
    pub hall: &'a Hall<'a, H, D, F>,
    pub mode: PseudoHitMode,
    pub owner: RigidBodyHandle,
    pub body: &'a RigidBody,
}

impl<'a, H: Host, D: Finder, F: Filter> BodySweep<'a, H, D, F> {
    /// Sweeps a collider that stands at a relative pose of its body, unless its shape is never swept.
    fn sweep_collider(
        &self,
        fast: FastCollider,
        relative: Pose,
        candidates: &mut [ColliderHandle],
        reached: f32,
        hits: &mut Space<PseudoHit>,
    ) -> f32
        ensures same_space { SameSpace hits.old hits.new }
        ensures value { (state hits.new, result) ≡ collider_swept (hall_of H.Host D.Finder F.Filter self.now.hall.now) (length candidates.old) self.now.mode (fast_of fast.entry) relative (state hits.old, reached) }
    {
        let body = fast.body;
        let sweep = collider_sweep(self.hall.host, body, relative);
        let Some(shape) = &FastShape::new(
            self.hall.host,
            fast.collider.shape,
            sweep,
            body.linvel,
            body.angvel,
        ) else {
            return reached;
        };
        let fast_sweep = FastSweep {
            hall: self.hall,
            mode: self.mode,
            fast,
            shape,
        };
        fast_sweep.sweep_along(sweep, candidates, reached, hits)
    }

    /// Sweeps a collider of the body, if it takes part.
    fn sweep_part(
        &self,
        fast: FastCollider,
        candidates: &mut [ColliderHandle],
        reached: f32,
        hits: &mut Space<PseudoHit>,
    ) -> f32
        ensures same_space { SameSpace hits.old hits.new }
        ensures value { (state hits.new, result) ≡ part_by (hall_of H.Host D.Finder F.Filter self.now.hall.now) (length candidates.old) self.now.mode (fast_of fast.entry) fast.entry.collider.now.parent (state hits.old, reached) }
    {
        match fast.collider.parent {
            Some(parent) if takes_part(self.mode, fast.collider) => {
                self.sweep_collider(fast, parent.relative, candidates, reached, hits)
            }
            _ => reached,
        }
    }

    /// Sweeps the collider that a handle of the body's list names.
    fn sweep_listed(
        &self,
        handle: ColliderHandle,
        candidates: &mut [ColliderHandle],
        reached: f32,
        hits: &mut Space<PseudoHit>,
    ) -> f32
        ensures same_space { SameSpace hits.old hits.new }
        ensures value { (state hits.new, result) ≡ part_swept (hall_of H.Host D.Finder F.Filter self.now.hall.now) (length candidates.old) self.now.mode self.now.owner self.now.body.now (state hits.old, reached) handle }
    {
        let Some(collider) = get(self.hall.colliders, handle.0) else {
            return reached;
        };
        let fast = FastCollider {
            owner: self.owner,
            body: self.body,
            handle,
            collider,
        };
        self.sweep_part(fast, candidates, reached, hits)
    }

    /// Sweeps each collider of the body, in the order of its list, against what the finder reports, under the fraction `start`. It answers
    /// the least solid impact fraction below that, or `start`, and writes the hits of pseudo pairs.
    pub fn run(
        &self,
        candidates: &mut [ColliderHandle],
        start: f32,
        hits: &mut Space<PseudoHit>,
    ) -> f32
        ensures same_space { SameSpace hits.old hits.new }
        ensures value { (state hits.new, result) ≡ body_swept (hall_of H.Host D.Finder F.Filter self.now.hall.now) (length candidates.old) self.now.mode self.now.owner self.now.body.now (state hits.old, start) (listed_handles self.now.body.now.colliders) }
    {
        let mut reached = start;
        for handle in self.body.colliders.as_slice() {
            reached = self.sweep_listed(*handle, candidates, reached, hits);
        }
        reached
    }
}
