//! The broad phase and the rule for barred pairs: two interfaces with their laws, and what is delivered of each.
#![tactic(auto)]

mod barred_pairs;
mod entry;
mod filter;
mod finder;
mod finder_fault;
mod kind;
pub mod laws;
mod offers;
mod order;
mod slot_table;
mod table;

pub use barred_pairs::{BarredPair, BarredPairs};
pub use entry::Entry;
pub use filter::{Filter, KeepAll};
pub use finder::Finder;
pub use finder_fault::FinderFault;
pub use kind::{AnySize, AtRest, Kind, Leaf};
pub use offers::{offer, offer_to};
pub use order::{Order, Upward};
pub use slot_table::{MOST_SLOTS, SlotTable};
pub use table::{FixedList, LeafTable, Table};
