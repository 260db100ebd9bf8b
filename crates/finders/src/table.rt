//! Tables by slots as finders: of a kind, and with an order of report.
ghost use Rattle.std.specs.Prelude.{◌≡◌, true, length, min};
ghost use Rattle.finders.specs.Finders.{empty};
ghost use Rattle.finders.specs.Tables.{table_meaning};
ghost use Rattle.finders.specs.TableLaws.{table_lawful};

use crate::finder::Finder;
use crate::finder_fault::FinderFault;
use crate::kind::{AnySize, AtRest, Kind, Leaf};
use crate::order::{Order, Upward};
use crate::slot_table::{MOST_SLOTS, SlotTable};
use geometry::{Aabb, ColliderHandle};
use spaces::Space;
use std::marker::PhantomData;

/// The most colliders that a fixed list holds.
const MOST_AT_REST: usize = 512;

/// A table of a kind, which reports in an order.
#[derive(Drop)]
pub struct Table<K: Kind, O: Order> {
    table: SlotTable,
    of: PhantomData<(K, O)>,
    ghost allowed: { K.allows (length (table_meaning table).held) (table_meaning table).capacity ≡ true },
}

/// The leaf table: a finder for all colliders, with a place for each slot of a bench. It refuses only what lies past its last slot.
pub type LeafTable = Table<Leaf, Upward>;

/// The fixed list: a finder for the colliders at rest. It has 1,024 slots, of which at most 512 hold something at a time.
pub type FixedList = Table<AtRest, Upward>;

impl Table<Leaf, Upward> {
    /// An empty table of a capacity; one above 1,024 counts as 1,024.
    pub fn new(capacity: usize) -> LeafTable
        ensures { table_meaning result.table ≡ empty (min capacity 1024) (min capacity 1024) }
    {
        let slots = capacity.min(MOST_SLOTS);
        Table {
            table: SlotTable::new(slots, slots),
            of: PhantomData,
        }
    }
}

impl Table<AtRest, Upward> {
    /// An empty list.
    pub fn new() -> FixedList
        ensures { table_meaning result.table ≡ empty 1024 512 }
    {
        Table {
            table: SlotTable::new(MOST_SLOTS, MOST_AT_REST),
            of: PhantomData,
        }
    }
}

impl<O: Order> Table<AnySize, O> {
    /// An empty table of at most 1,024 slots.
    pub fn new(slots: usize, limit: usize) -> Table<AnySize, O>
        ensures { table_meaning result.table ≡ empty (min slots 1024) limit }
    {
        Table {
            table: SlotTable::new(slots, limit),
            of: PhantomData,
        }
    }
}

impl<K: Kind, O: Order> Finder for Table<K, O> {
    ghost meaning = { λ d. table_meaning d.table };

    ghost listed = { λ d. O.listed (table_meaning d.table).held };

    ghost lawful = { λ d. table_lawful d.table O.listed (O.lists) };

    fn capacity(&self) -> usize {
        self.table.capacity()
    }

    fn set(&mut self, collider: ColliderHandle, aabb: Aabb) -> Result<(), FinderFault> {
        self.table.set(collider, aabb)
    }

    fn remove(&mut self, collider: ColliderHandle) {
        self.table.remove(collider);
    }

    fn clear(&mut self) {
        self.table.clear();
    }

    // the caller lends the space, C among them, and is told how much is written
    fn report(&self, aabb: Aabb, p: f32, out: &mut [ColliderHandle]) -> usize {
        let mut space = Space::new(out);
        O::offer_all(&self.table, aabb, p, &mut space);
        space.count()
    }
}
