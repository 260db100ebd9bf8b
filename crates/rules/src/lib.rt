//! The rules of a bench, tested on whatever is lent: one pass over each store, a constant number of steps for each slot and for each
//! of a body's eight entries.
#![tactic(auto)]

mod admitted;
mod bench;
mod bodies;
mod colliders;
pub mod laws;

pub use bench::{Bench, MOST_BODY_SLOTS, MOST_COLLIDER_SLOTS};
