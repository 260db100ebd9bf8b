//! The order in which a table reports.
ghost use Rattle.std.specs.Prelude.{◌≡◌, Float};
ghost use Rattle.geometry.specs.declared.aabb.Aabb.{Aabb as Box};
ghost use Rattle.spaces.specs.Spaces.{state, SameSpace};
ghost use Rattle.finders.specs.Finders.{Held, Listing};
ghost use Rattle.finders.specs.FinderLaws.{Lists};
ghost use Rattle.finders.specs.Tables.{table_meaning, upward, offered};
ghost use Rattle.finders.specs.TableLaws.{upward_lists};

use crate::offers::offer_to;
use crate::slot_table::SlotTable;
use geometry::{Aabb, ColliderHandle};
use spaces::Space;

/// An order of the slots of a table, in which what is held is listed.
pub trait Order {
    /// What is listed of what is held.
    ghost listed: { Held → Listing };

    /// Each collider that meets is listed once, and no other, which each order proves.
    ghost lists: { (h : Held) (q : Box) (p : Float) → Lists h q p (listed h q p) };

    /// Writes the colliders of a table whose box, loosened by `p`, meets `aabb`, as far as there is room.
    fn offer_all(table: &SlotTable, aabb: Aabb, p: f32, space: &mut Space<ColliderHandle>)
        ensures same_space { SameSpace space.old space.new }
        ensures written { state space.new ≡ offered (state space.old) (listed (table_meaning table.now).held aabb p) };
}

/// From the first slot to the last.
#[derive(Clone, Copy)]
pub struct Upward;

impl Order for Upward {
    ghost listed = { upward 0 };

    ghost lists = { upward_lists };

    fn offer_all(table: &SlotTable, aabb: Aabb, p: f32, space: &mut Space<ColliderHandle>) {
        for (slot, entry) in table.held().iter().enumerate() {
            offer_to(slot as u32, *entry, aabb, p, space);
        }
    }
}
