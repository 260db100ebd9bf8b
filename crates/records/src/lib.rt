//! The records of a bench: bodies with the lists of their colliders, colliders, and the reasons of refusals.
#![tactic(auto)]

mod collider;
mod collider_list;
mod equality;
mod fault;
pub mod laws;
mod rigid_body;

pub use collider::{Collider, ColliderParent, at_rest, next_collider};
pub use collider_list::{ColliderList, MOST_COLLIDERS};
pub use equality::{same_number, same_pose, same_vector};
pub use fault::Fault;
pub use rigid_body::RigidBody;
