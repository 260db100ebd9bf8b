//! The estimator's desk: the lists of one hall, the answers to its commands, and how they are written, for people and for
//! programs.
#![tactic(auto)]

mod answers;
mod lines;
mod lists;
mod printed;
mod tally;

pub use answers::Answer;
pub use lines::Lines;
pub use lists::Desk;
pub use tally::Tally;
