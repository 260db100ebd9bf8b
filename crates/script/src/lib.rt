//! One line of a hall script, read into a command or the trouble with it.
#![tactic(auto)]

mod children;
mod choices;
mod command;
pub mod laws;
mod line;
mod lines;
mod verbs;

pub use command::{Children, Command, HostChoice};
pub use line::{read, word};
pub use texts::Trouble;
