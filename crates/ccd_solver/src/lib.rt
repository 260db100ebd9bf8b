//! The end of a step: non-bullets are swept and clamped, then bullets, then the crossings are told. A port of parts of
//! `ccd_solver.rs` of rapier3d 0.35.3, changed: see NOTICE.
#![tactic(auto)]

mod first_impact;
mod fixed_targets;
mod scene;
mod solver;
mod stages;

pub use first_impact::{find_first_impact, impact_time};
pub use fixed_targets::collect_fixed_targets;
pub use scene::Scene;
pub use solver::{Solved, solve};
