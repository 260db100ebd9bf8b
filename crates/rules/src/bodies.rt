//! The rules on bodies.
ghost use Rattle.std.specs.Prelude.{◌≡◌};
ghost use Rattle.rules.specs.Scans.{every_live};
ghost use Rattle.rules.specs.Rules.{ranged_body, markable, distinct, owns, owns_all, list_holds, body_holds, body_rule};

use crate::bench::Bench;
use geometry::{ColliderHandle, RigidBodyHandle};
use hosts::Host;
use numbers::RANGE;
use records::{ColliderList, RigidBody};
use slots::{get, live_records};

/// Whether each number of a body is in range.
fn is_ranged(body: &RigidBody) -> bool
    ensures { result ≡ ranged_body body.now }
{
    body.position.in_range(RANGE)
        && body.next.in_range(RANGE)
        && body.centre.in_range(RANGE)
        && body.linvel.in_range(RANGE)
        && body.angvel.in_range(RANGE)
}

/// Whether a body is Dynamic, or not marked.
fn is_markable(body: &RigidBody) -> bool
    ensures { result ≡ markable body.now }
{
    !body.marked || body.is_dynamic()
}

/// Whether no handle stands twice.
fn are_distinct(handles: &[ColliderHandle]) -> bool
    ensures { result ≡ distinct handles.now }
{
    let mut rest = handles;
    while let Some((first, others)) = rest.split_first() {
        if others.contains(first) {
            return false;
        }
        rest = others;
    }
    true
}

impl<H: Host> Bench<'_, H> {
    /// Whether a collider is live and names the body.
    fn owns(&self, body: RigidBodyHandle, handle: ColliderHandle) -> bool
        ensures { result ≡ owns self.now.colliders.now body handle }
    {
        get(self.colliders, handle.0)
            .and_then(|collider| collider.parent)
            .is_some_and(|parent| parent.body == body)
    }

    /// Whether each collider is live and names the body.
    fn owns_all(&self, body: RigidBodyHandle, handles: &[ColliderHandle]) -> bool
        ensures { result ≡ owns_all self.now.colliders.now body handles.now }
    {
        handles.iter().all(|handle| self.owns(body, *handle))
    }

    /// Whether a body's list is short, without repetition, and of colliders that name the body.
    fn list_holds(&self, body: RigidBodyHandle, list: &ColliderList) -> bool
        ensures { result ≡ list_holds self.now.colliders.now body list.now }
    {
        list.is_counted() && are_distinct(list.as_slice()) && self.owns_all(body, list.as_slice())
    }

    fn body_holds(&self, handle: RigidBodyHandle, body: &RigidBody) -> bool
        ensures { result ≡ body_holds self.now.colliders.now handle body.now }
    {
        is_ranged(body) && is_markable(body) && self.list_holds(handle, &body.colliders)
    }

    /// Whether each live body obeys the rules.
    pub(crate) fn bodies_hold(&self) -> bool
        ensures { result ≡ every_live (body_rule self.now.colliders.now) self.now.bodies.now }
    {
        let mut bodies = live_records(self.bodies);
        bodies.all(|(handle, body)| self.body_holds(RigidBodyHandle(handle), body))
    }
}
