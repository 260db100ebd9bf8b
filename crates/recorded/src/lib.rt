//! The recorded host: shapes and answers that are listed.
#![tactic(auto)]

mod recorded_host;
mod rows;

pub use rows::{Listed, Recorded, Row};
