//! The list of the colliders at rest.
ghost use Rattle.std.specs.Prelude.{◌≡◌};
ghost use Rattle.ccd_solver.specs.FixedTargets.{is_target, entered, all_entered, collected};

use finders::{Finder, FinderFault, MOST_SLOTS};
use geometry::ColliderHandle;
use hosts::Host;
use pairs::parent_body;
use records::{Collider, RigidBody, at_rest};
use slots::{Slot, live_records};

/// Whether a collider belongs into the list: enabled, and without a body or with a Fixed one.
fn is_fixed_target(bodies: &[Slot<RigidBody>], collider: &Collider) -> bool
    ensures { result ≡ is_target bodies.now collider.now }
{
    collider.is_enabled() && at_rest(parent_body(bodies, collider))
}

/// Enters a collider at its own pose, if it belongs into the list.
// host, bodies and list, and no struct of them: it would hold the list by `&mut` for these three calls alone
fn enter<H: Host, L: Finder>(
    host: &H,
    bodies: &[Slot<RigidBody>],
    handle: ColliderHandle,
    collider: &Collider,
    list: &mut L,
) -> Result<(), FinderFault>
    ensures { (L.meaning list.new, result) ≡ entered (H.answers host.now) bodies.now (L.meaning list.old) handle collider.now }
{
    if is_fixed_target(bodies, collider) {
        list.set(handle, host.aabb(collider.shape, collider.position))?;
    }
    Ok(())
}

/// Enters all enabled colliders at rest, with their boxes at their own poses, up to the first that is refused.
fn enter_all<H: Host, L: Finder>(
    host: &H,
    bodies: &[Slot<RigidBody>],
    colliders: &[Slot<Collider>],
    list: &mut L,
) -> Result<(), FinderFault>
    ensures { (L.meaning list.new, result) ≡ all_entered (H.answers host.now) bodies.now colliders.now (L.meaning list.old) }
{
    if colliders.len() > MOST_SLOTS {
        return Err(FinderFault::PastTheLastSlot);
    }
    for (handle, collider) in live_records(colliders) {
        enter(host, bodies, ColliderHandle(handle), collider, list)?;
    }
    Ok(())
}

/// Makes the list anew: all enabled colliders at rest, with their boxes at their own poses. It refuses where they find no room.
pub fn collect_fixed_targets<H: Host, L: Finder>(
    host: &H,
    bodies: &[Slot<RigidBody>],
    colliders: &[Slot<Collider>],
    list: &mut L,
) -> Result<(), FinderFault>
    ensures { (L.meaning list.new, result) ≡ collected (H.answers host.now) bodies.now colliders.now (L.meaning list.old) }
{
    list.clear();
    enter_all(host, bodies, colliders, list)
}
