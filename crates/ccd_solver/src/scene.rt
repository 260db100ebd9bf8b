//! What a solve reads.
use geometry::RigidBodyHandle;
use pair_casts::Step;
use records::Collider;
use slots::Slot;

/// What a solve reads and does not change. `fixed` is the list of the colliders at rest, where it is whole.
#[derive(Drop)]
pub struct Scene<'a, H, L, D, F> {
    pub host: &'a H,
    pub fixed: Option<&'a L>,
    pub finder: &'a D,
    pub filter: &'a F,
    pub colliders: &'a [Slot<Collider>],
    pub active: &'a [RigidBodyHandle],
    pub step: Step,
}

/// Which bodies are swept in a stage.
#[derive(Clone, Copy, PartialEq, Eq, Debug)]
pub enum Tier {
    NonBullets,
    Bullets,
}
