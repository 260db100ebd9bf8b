//! What a finder holds in a slot.
ghost use Rattle.std.specs.Prelude.{◌≡◌};
ghost use Rattle.finders.specs.Finders.{entry_of};

use geometry::{Aabb, ColliderHandle};

/// What a slot holds: the generation of the collider, and its box.
#[derive(Clone, Copy)]
pub struct Entry {
    pub generation: u32,
    pub aabb: Aabb,
}

impl Entry {
    /// What a collider's slot holds for it.
    pub fn new(collider: ColliderHandle, aabb: Aabb) -> Entry
        ensures { result ≡ entry_of collider aabb }
    {
        Entry {
            generation: collider.0.generation,
            aabb,
        }
    }
}
