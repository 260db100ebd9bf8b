//! What a fast shape is cast at, and under which terms.
use geometry::Pose;
use outcomes::PairKind;

/// The terms of a step: its duration, the linear slop of the casts, and the distance by which targets are loosened.
#[derive(Clone, Copy)]
pub struct Step {
    pub dt: f32,
    pub slop: f32,
    pub prediction: f32,
}

/// A target: its shape, where it stands, and how the pair judges its casts.
#[derive(Clone, Copy)]
pub struct Target {
    pub shape: u32,
    pub pose: Pose,
    pub pair: PairKind,
}
