//! Colliders and boxes for examples.
use geometry::{Aabb, ColliderHandle, Handle, Vector};

pub(crate) fn collider(slot: u32, generation: u32) -> ColliderHandle {
    ColliderHandle(Handle { slot, generation })
}

/// The box from one number to another on each axis.
pub(crate) fn cube(least: f32, greatest: f32) -> Aabb {
    Aabb {
        mins: Vector::splat(least),
        maxs: Vector::splat(greatest),
    }
}
