//! The rules on colliders.
ghost use Rattle.std.specs.Prelude.{◌≡◌};
ghost use Rattle.rules.specs.Scans.{every_live};
ghost use Rattle.rules.specs.Rules.{stands_right, parent_holds, collider_holds, collider_rule};

use crate::bench::Bench;
use geometry::{ColliderHandle, Pose};
use hosts::Host;
use numbers::RANGE;
use records::{Collider, ColliderParent, RigidBody, same_pose};
use slots::{get, live_records};

impl<H: Host> Bench<'_, H> {
    /// Whether a body lists the collider, and the collider stands where the body and the relative pose put it.
    fn stands_right(
        &self,
        handle: ColliderHandle,
        own: Pose,
        relative: Pose,
        body: &RigidBody,
    ) -> bool
        ensures { result ≡ stands_right (H.answers self.now.host.now) handle own relative body.now }
    {
        body.colliders.contains(handle)
            && same_pose(own, self.host.product(body.position, relative))
    }

    /// Whether the collider's body, if it has one, is live, lists it, and carries it.
    fn parent_holds(
        &self,
        handle: ColliderHandle,
        own: Pose,
        parent: Option<ColliderParent>,
    ) -> bool
        ensures { result ≡ parent_holds (H.answers self.now.host.now) self.now.bodies.now handle own parent }
    {
        let Some(parent) = parent else {
            return true;
        };
        if !parent.relative.in_range(RANGE) {
            return false;
        }
        // a match: with `is_some_and` the proof did not close
        match get(self.bodies, parent.body.0) {
            Some(body) => self.stands_right(handle, own, parent.relative, body),
            None => false,
        }
    }

    fn collider_holds(&self, handle: ColliderHandle, collider: &Collider) -> bool
        ensures { result ≡ collider_holds (H.answers self.now.host.now) self.now.bodies.now handle collider.now }
    {
        self.host.kind(collider.shape).is_some()
            && self.parent_holds(handle, collider.position, collider.parent)
    }

    /// Whether each live collider obeys the rules.
    pub(crate) fn colliders_hold(&self) -> bool
        ensures { result ≡ every_live (collider_rule (H.answers self.now.host.now) self.now.bodies.now) self.now.colliders.now }
    {
        let mut colliders = live_records(self.colliders);
        colliders.all(|(handle, collider)| self.collider_holds(ColliderHandle(handle), collider))
    }
}
