//! The collider that is cast at.
ghost use Rattle.std.specs.Prelude.{◌≡◌, option_copied};
ghost use Rattle.pairs.specs.Pairs.{parent_body, stands_at};

use geometry::Pose;
use hosts::Host;
use records::{Collider, RigidBody};
use slots::{Slot, get};

/// The live body of a collider.
pub fn parent_body<'a>(bodies: &'a [Slot<RigidBody>], collider: &Collider) -> Option<&'a RigidBody>
    ensures { option_copied result ≡ parent_body bodies.now collider.now.parent }
{
    get(bodies, collider.parent?.body.0)
}

/// Where a target stands through the sweep: with its body at the end of the step, which for a clamped body is where it was
/// clamped, and without a body at its own pose.
pub fn target_collider_pose<H: Host>(
    host: &H,
    collider: &Collider,
    body: Option<&RigidBody>,
) -> Pose
    ensures { result ≡ stands_at (H.answers host.now) collider.now (option_copied body.entry) }
{
    match (collider.parent, body) {
        (Some(parent), Some(body)) => host.product(body.next, parent.relative),
        _ => collider.position,
    }
}
