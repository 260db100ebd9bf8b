//! Whether the host works at every pose that is stored.
ghost use Rattle.std.specs.Prelude.{◌≡◌};
ghost use Rattle.rules.specs.Scans.{every_record};
ghost use Rattle.rules.specs.Admitted.{admitted_body, admitted_from, admitted_collider};

use crate::bench::Bench;
use geometry::Pose;
use hosts::Host;
use records::{Collider, RigidBody};
use slots::{Slot, get};

impl<H: Host> Bench<'_, H> {
    /// Whether the host admits both poses of a body.
    fn admits_body(&self, body: &RigidBody) -> bool
        ensures { result ≡ admitted_body (H.answers self.now.host.now) body.now }
    {
        self.host.admits(body.position) && self.host.admits(body.next)
    }

    /// Whether the host admits what stands at a relative pose of a body, at both poses of the body.
    fn admits_from(&self, relative: Pose, body: &RigidBody) -> bool
        ensures { result ≡ admitted_from (H.answers self.now.host.now) relative body.now }
    {
        self.host.admits(self.host.product(body.position, relative))
            && self.host.admits(self.host.product(body.next, relative))
    }

    /// Whether the host admits a collider where it stands. One whose body is not live is passed over.
    fn admits_collider(&self, collider: &Collider) -> bool
        ensures { result ≡ admitted_collider (H.answers self.now.host.now) self.now.bodies.now collider.now }
    {
        let Some(parent) = collider.parent else {
            return self.host.admits(collider.position);
        };
        // a match: with `is_none_or` the proof did not close
        match get(self.bodies, parent.body.0) {
            Some(body) => self.admits_from(parent.relative, body),
            None => true,
        }
    }

    /// Whether the host admits the poses of each body.
    // not `live_records`, which ends at the last slot that has a number: this speaks of every slot
    pub(crate) fn admits_bodies(&self) -> bool
        ensures { result ≡ every_record (admitted_body (H.answers self.now.host.now)) self.now.bodies.now }
    {
        self.bodies.iter().all(|slot| match slot {
            Slot::Live { value, .. } => self.admits_body(value),
            _ => true,
        })
    }

    /// Whether the host admits each collider where it stands.
    pub(crate) fn admits_colliders(&self) -> bool
        ensures { result ≡ every_record (admitted_collider (H.answers self.now.host.now) self.now.bodies.now) self.now.colliders.now }
    {
        self.colliders.iter().all(|slot| match slot {
            Slot::Live { value, .. } => self.admits_collider(value),
            _ => true,
        })
    }
}
