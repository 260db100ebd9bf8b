//! Which pairs of colliders are cast: admission, solid or pseudo, and where a target stands. A port of parts of `sweeps.rs` of
//! rapier3d 0.35.3, changed: see NOTICE.
#![tactic(auto)]

mod admission;
mod fast_collider;
mod target;

pub use admission::{pair_kind, tier_allows};
pub use fast_collider::{Candidate, FastCollider};
pub use target::{parent_body, target_collider_pose};
