//! The two colliders of a pair.
use geometry::{ColliderHandle, RigidBodyHandle};
use records::{Collider, RigidBody};

/// A collider that is swept, with its body.
#[derive(Clone, Copy)]
pub struct FastCollider<'a> {
    pub owner: RigidBodyHandle,
    pub body: &'a RigidBody,
    pub handle: ColliderHandle,
    pub collider: &'a Collider,
}

/// A collider that a swept one may meet, with its body, if it has a live one.
#[derive(Clone, Copy)]
pub struct Candidate<'a> {
    pub handle: ColliderHandle,
    pub collider: &'a Collider,
    pub body: Option<&'a RigidBody>,
}
