//! The geometry of a bench: the questions that it is asked, the laws of its answers, and the arithmetic of poses that
//! never turn, which both hosts delivered share.
#![tactic(auto)]

pub mod children;
mod host;
mod questions;
pub mod turnless;

pub use host::Host;
pub use questions::{CastQuery, Child, Motion, Sweep, TurningQuery};
