//! The texts of a hall script: words, shape numbers, numbers, places and poses.
#![tactic(auto)]

mod cuts;
mod digits;
pub mod laws;
mod places;
mod reals;
mod trouble;
mod words;

pub use cuts::{Until, front, past, skip};
pub use digits::shape;
pub use places::{place, pose};
pub use reals::number;
pub use trouble::Trouble;
pub use words::{Words, word_at};
