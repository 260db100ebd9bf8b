//! All that a sweep reads, and what it writes.
use geometry::{ColliderHandle, RigidBodyHandle};
use pair_casts::Step;
use records::{Collider, RigidBody};
use slots::Slot;

/// All that a sweep reads.
#[derive(Drop)]
pub struct Hall<'a, H, D, F> {
    pub host: &'a H,
    pub finder: &'a D,
    pub filter: &'a F,
    pub bodies: &'a [Slot<RigidBody>],
    pub colliders: &'a [Slot<Collider>],
    pub step: Step,
}

/// An accepted fraction of a pseudo pair, under the number of the swept body's result.
#[derive(Clone, Copy)]
pub struct PseudoHit {
    pub result: usize,
    pub first: ColliderHandle,
    pub second: ColliderHandle,
    pub fraction: f32,
}

/// What becomes of pseudo pairs: noted under the number of a result, or passed over.
// no Option: `None` would not say that such pairs, and sensors, are left out
#[derive(Clone, Copy, PartialEq, Eq, Debug)]
pub enum PseudoHitMode {
    Record(usize),
    Ignore,
}

/// How far a body comes: the least fraction of a solid impact, or 1.
#[derive(Clone, Copy)]
pub struct BodyContinuousResult {
    pub handle: RigidBodyHandle,
    pub fraction: f32,
}

/// How far a swept body comes, as far as is known, and how many hits are written.
#[derive(Clone, Copy)]
pub struct Reached {
    pub fraction: f32,
    pub hits: usize,
}
