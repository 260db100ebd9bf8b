//! The records of a store, one after the other.
ghost use Rattle.std.specs.Prelude.{◌≡◌};
ghost use Rattle.std.specs.Iterator.{YieldsFirstBy, item_count};
ghost use Rattle.slots.specs.Records.{records_in};

use crate::Slot;
use geometry::Handle;
use std::marker::Model;

/// The records that are left, each with its handle.
// a struct, since no function can hand out a chain
#[derive(Drop)]
pub struct LiveRecords<'a, T> {
    slots: &'a [Slot<T>],
    // The number of the first of `slots`.
    number: u32,
}

impl<'a, T> Model for LiveRecords<'a, T> {
    ghost use Rattle.std.specs.Prelude.{List, length, ◌+◌, ◌^◌, ◌<◌};
    ghost use Rattle.geometry.specs.declared.handle.Handle.{Handle};

    ghost Value = { List (Handle × T) };

    ghost use Rattle.slots.specs.Records.{records_from};

    ghost view = { λ it. records_from it.number it.slots.now };

    ghost invariant = { λ it. it.number + length it.slots.now < 2 ^ 32 };
}

/// The records of a store with their handles, in the order of the slots. Slots past those that a header can count have no handle.
#[tactic(auto, using(std::proofs::lemmas::List::take_min))]
pub fn live_records<T>(slots: &[Slot<T>]) -> LiveRecords<'_, T>
    ensures { result ≡ records_in slots.now }
{
    let counted = (u32::MAX as usize).min(slots.len());
    LiveRecords {
        slots: &slots[..counted],
        number: 0,
    }
}

impl<'a, T> Iterator for LiveRecords<'a, T> {
    type Item = (Handle, &'a T);

    ghost next_gives = { YieldsFirstBy (λ item. (item.0, item.1.now)) (λ rest. rest) };

    ghost remaining = { item_count (λ rest. rest) };

    fn next(&mut self) -> Option<(Handle, &'a T)> {
        while let Some((first, others)) = self.slots.split_first() {
            let slot = self.number;
            self.slots = others;
            self.number += 1;
            if let Slot::Live { generation, value } = first {
                let handle = Handle {
                    slot,
                    generation: *generation,
                };
                return Some((handle, value));
            }
        }
        None
    }
}
