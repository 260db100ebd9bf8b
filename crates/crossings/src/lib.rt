//! Crossings of sensors that nobody would see at either end of a step, and their events. A port of parts of `ccd_solver.rs` of
//! rapier3d 0.35.3, changed: see NOTICE.
#![tactic(auto)]

mod crossing;
mod emission;
mod event;

pub use crossing::EndOfStep;
pub use event::CollisionEvent;
