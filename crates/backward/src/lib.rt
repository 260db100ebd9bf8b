//! A finder with an order of its own, from the last slot to the first: what holds of any finder holds of it.
#![tactic(auto)]

ghost use Rattle.spaces.specs.Spaces.{state, SameSpace};
ghost use Rattle.finders.specs.Tables.{table_meaning, offered};
ghost use Rattle.backward.specs.Downward.{downward};
ghost use Rattle.backward.specs.DownwardLaws.{downward_lists};

use finders::{AnySize, Order, SlotTable, Table, offer_to};
use geometry::{Aabb, ColliderHandle};
use spaces::Space;

/// From the last slot to the first.
#[derive(Clone, Copy)]
pub struct Downward;

impl Order for Downward {
    ghost listed = { downward };

    ghost lists = { downward_lists };

    #[tactic(auto, using(crate::proofs::Rows::downward_push))]
    fn offer_all(table: &SlotTable, aabb: Aabb, p: f32, space: &mut Space<ColliderHandle>) {
        for (slot, entry) in table.held().iter().enumerate().rev() {
            offer_to(slot as u32, *entry, aabb, p, space);
        }
    }
}

/// A table that reports from the last slot to the first.
pub type Backward = Table<AnySize, Downward>;
