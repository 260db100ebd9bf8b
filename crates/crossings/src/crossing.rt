//! Which hits are crossings.
ghost use Rattle.std.specs.Prelude.{◌≡◌};
ghost use Rattle.crossings.specs.Crossings.{overlaps_at, end_pose, passes, crosses};

use geometry::Pose;
use hosts::Host;
use outcomes::is_yes;
use pairs::{parent_body, target_collider_pose};
use records::{Collider, RigidBody};
use slots::{Slot, get};
use sweeps::{BodyContinuousResult, PseudoHit};

/// All that the end of a step reads: the bodies as they were clamped, and how far each came.
#[derive(Drop)]
pub struct EndOfStep<'a, H> {
    pub host: &'a H,
    pub bodies: &'a [Slot<RigidBody>],
    pub colliders: &'a [Slot<Collider>],
    pub results: &'a [BodyContinuousResult],
}

impl<'a, H: Host> EndOfStep<'a, H> {
    /// Whether two colliders overlap at two poses. What the host cannot tell is not yes.
    fn overlap_at(
        &self,
        first: &Collider,
        first_pose: Pose,
        second: &Collider,
        second_pose: Pose,
    ) -> bool
        ensures { result ≡ overlaps_at (H.answers self.now.host.now) first.now first_pose second.now second_pose }
    {
        let relative = self.host.relative_pose(first_pose, second_pose);
        is_yes(self.host.overlap(relative, first.shape, second.shape))
    }

    /// Where a collider stands at the end of the step.
    fn end_pose(&self, collider: &Collider) -> Pose
        ensures { result ≡ end_pose (H.answers self.now.host.now) self.now.bodies.now collider.now }
    {
        target_collider_pose(self.host, collider, parent_body(self.bodies, collider))
    }

    /// Whether two colliders, of which one is a sensor and one has the event bit, overlap neither before nor after the step.
    fn pass_each_other(&self, first: &Collider, second: &Collider) -> bool
        ensures { result ≡ passes (H.answers self.now.host.now) self.now.bodies.now first.now second.now }
    {
        (first.is_sensor() || second.is_sensor())
            && (first.has_events() || second.has_events())
            && !self.overlap_at(first, first.position, second, second.position)
            && !self.overlap_at(first, self.end_pose(first), second, self.end_pose(second))
    }

    /// Whether a hit is a crossing of a body that comes as far as the fraction.
    pub fn is_crossing(&self, fraction: f32, hit: PseudoHit) -> bool
        ensures { result ≡ crosses (H.answers self.now.host.now) self.now.bodies.now self.now.colliders.now fraction hit }
    {
        // tested first: most hits that are none need no look at the colliders
        if !(hit.fraction < fraction) {
            return false;
        }
        let (Some(first), Some(second)) = (
            get(self.colliders, hit.first.0),
            get(self.colliders, hit.second.0),
        ) else {
            return false;
        };
        self.pass_each_other(first, second)
    }
}
