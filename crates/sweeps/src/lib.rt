//! One body's sweep: its colliders, what the finder reports of each, and the pairs that are cast. A port of parts of `sweeps.rs` of
//! rapier3d 0.35.3, changed: see NOTICE.
#![tactic(auto)]

mod candidates;
mod colliders;
mod counted;
mod hall;

pub use candidates::FastSweep;
pub use colliders::BodySweep;
pub use counted::{handle_candidate, sweep_fast_body};
pub use hall::{BodyContinuousResult, Hall, PseudoHit, PseudoHitMode, Reached};
