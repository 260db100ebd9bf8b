//! Places, turns, poses, boxes, groups, handles and kinds: small records and enums, passed by value.
#![tactic(auto)]

mod aabb;
mod handle;
mod interaction_groups;
pub mod laws;
mod pose;
mod rigid_body_type;
mod shape_kind;
mod unknown_number;
mod vector;

pub use aabb::Aabb;
pub use handle::{ColliderHandle, Handle, RigidBodyHandle};
pub use interaction_groups::{InteractionGroups, InteractionTestMode};
pub use pose::{Pose, Rotation};
pub use rigid_body_type::RigidBodyType;
pub use shape_kind::ShapeKind;
pub use unknown_number::UnknownNumber;
pub use vector::Vector;
