//! What a host is asked.
use geometry::{Pose, Vector};

/// A part of a Compound: a shape, and where it stands in it.
#[derive(Clone, Copy, Default)]
pub struct Child {
    pub pose: Pose,
    pub shape: u32,
}

/// A motion from one pose to another, about a local centre.
#[derive(Clone, Copy, Default)]
pub struct Sweep {
    pub start: Pose,
    pub end: Pose,
    pub centre: Vector,
}

/// A motion by velocities, about a local centre.
#[derive(Clone, Copy, Default)]
pub struct Motion {
    pub start: Pose,
    pub centre: Vector,
    pub linear: Vector,
    pub angular: Vector,
}

/// A cast of a fast shape along its sweep at a target that stands still.
#[derive(Clone, Copy)]
pub struct CastQuery {
    pub fast: u32,
    pub sweep: Sweep,
    pub target: u32,
    pub pose: Pose,
    pub slop: f32,
}

/// A cast of a turning shape, for a time `dt`, at a target that stands still.
#[derive(Clone, Copy)]
pub struct TurningQuery {
    pub fast: u32,
    pub motion: Motion,
    pub target: u32,
    pub pose: Pose,
    pub dt: f32,
}
