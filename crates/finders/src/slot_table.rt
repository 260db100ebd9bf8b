//! A table with a place for each of up to 1,024 slots.
ghost use Rattle.std.specs.Prelude.{◌≡◌, ◌≤◌, length};
ghost use Rattle.finders.specs.Finders.{held_count};

use crate::entry::Entry;
use crate::finder_fault::FinderFault;
use arrayvec::ArrayVec;
use geometry::{Aabb, ColliderHandle};

/// The most slots of a table.
pub const MOST_SLOTS: usize = 1_024;

/// What each slot holds; `count` of them hold something, and at most `limit` may. Setting and removing take constant time. A report
/// looks at each slot once, and tests the box of each collider held.
#[derive(Drop)]
pub struct SlotTable {
    entries: ArrayVec<Option<Entry>, MOST_SLOTS>,
    limit: usize,
    count: usize,
    ghost few: { length entries.items ≤ 1024 },
    ghost counted: { count ≡ held_count entries.items },
    ghost limited: { count ≤ limit },
}

impl SlotTable {
    ghost use Rattle.std.specs.Prelude.{◌<◌, min, slice_set};
    ghost use Rattle.finders.specs.Finders.{empty, cleared, entry_at, put_at, set_in, remove_in};
    ghost use Rattle.finders.specs.Tables.{table_meaning, count_with};

    /// A table that holds nothing, of a number of slots; one above 1,024 counts as 1,024.
    pub fn new(slots: usize, limit: usize) -> SlotTable
        ensures { table_meaning result ≡ empty (min slots 1024) limit }
    {
        let mut entries = ArrayVec::from([None; MOST_SLOTS]);
        entries.truncate(slots);
        SlotTable {
            entries,
            limit,
            count: 0,
        }
    }

    /// How many slots may hold something.
    pub fn capacity(&self) -> usize
        ensures { result ≡ (table_meaning self.now).capacity }
    {
        self.limit
    }

    /// What each slot holds.
    pub fn held(&self) -> &[Option<Entry>]
        ensures value { result.now ≡ (table_meaning self.now).held }
        ensures few { length result.now ≤ 1024 }
    {
        self.entries.as_slice()
    }

    /// What a slot holds; a slot past the last holds nothing.
    fn entry(&self, slot: usize) -> Option<Entry>
        ensures { result ≡ entry_at (table_meaning self.now).held slot }
    {
        self.entries.get(slot).copied().flatten()
    }

    /// Has a slot hold `entry`; `count` slots hold something then.
    fn put(&mut self, slot: usize, entry: Option<Entry>, count: usize)
        requires slot { slot < length (table_meaning self.old).held }
        requires count { count ≡ held_count (slice_set (table_meaning self.old).held slot entry) }
        requires limit { count ≤ self.old.limit }
        ensures { table_meaning self.new ≡ put_at (table_meaning self.old) slot entry }
    {
        self.entries[slot] = entry;
        self.count = count;
    }

    /// How many slots hold something once a collider is held, or why it is refused.
    fn count_with(&self, collider: ColliderHandle) -> Result<usize, FinderFault>
        ensures { result ≡ count_with (table_meaning self.now) collider }
    {
        match self.entries.get(collider.0.slot as usize) {
            None => Err(FinderFault::PastTheLastSlot),
            Some(Some(_)) => Ok(self.count),
            Some(None) if self.count < self.limit => Ok(self.count + 1),
            Some(None) => Err(FinderFault::Full),
        }
    }

    /// Holds a collider's box in its slot, if there is one and it holds something already or the limit is not reached.
    #[tactic(auto, using(crate::proofs::Slots::taken, crate::proofs::Slots::not_taken))]
    pub fn set(&mut self, collider: ColliderHandle, aabb: Aabb) -> Result<(), FinderFault>
        ensures { (table_meaning self.new, result) ≡ set_in (table_meaning self.old) collider aabb }
    {
        let count = self.count_with(collider)?;
        let entry = Entry::new(collider, aabb);
        self.put(collider.0.slot as usize, Some(entry), count);
        Ok(())
    }

    /// Removes a collider, if it is held.
    pub fn remove(&mut self, collider: ColliderHandle)
        ensures { table_meaning self.new ≡ remove_in (table_meaning self.old) collider }
    {
        let slot = collider.0.slot as usize;
        let generation = collider.0.generation;
        if self
            .entry(slot)
            .is_some_and(|entry| entry.generation == generation)
        {
            self.put(slot, None, self.count - 1);
        }
    }

    /// Removes every collider.
    pub fn clear(&mut self)
        ensures { table_meaning self.new ≡ cleared (table_meaning self.old) }
    {
        self.entries.as_mut_slice().fill(None);
        self.count = 0;
    }
}
