//! The casts of one pair: how the fast shape is swept, and what the pair takes of its casts at a cap. A port of parts of `sweeps.rs`
//! of rapier3d 0.35.3, changed: see NOTICE.
#![tactic(auto)]

mod cast;
mod fast_shape;
mod target;

pub use cast::{PairCast, cast_collider_pair};
pub use fast_shape::{FastShape, FastShapeKind, FastSubShape, SubShapes};
pub use target::{Step, Target};
