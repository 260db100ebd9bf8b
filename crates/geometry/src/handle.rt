//! Names of records: a slot, and the generation of that slot.

/// Names a record: the slot that holds it, and the generation of that slot.
#[derive(Clone, Copy, PartialEq, Eq, Debug)]
pub struct Handle {
    pub slot: u32,
    pub generation: u32,
}

/// Names a body.
// two newtypes of a line each: a `Handle<T>` with a marker for each would be no plainer
#[derive(Clone, Copy, PartialEq, Eq, Debug)]
pub struct RigidBodyHandle(pub Handle);

/// Names a collider.
#[derive(Clone, Copy, PartialEq, Eq, Debug)]
pub struct ColliderHandle(pub Handle);
