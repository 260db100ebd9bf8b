//! The slide host: boxes and Compounds of boxes, which slide along straight strokes and never turn.
#![tactic(auto)]

mod shapes;
mod slide_host;

pub use shapes::{Shape, Slide};
