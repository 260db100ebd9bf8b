//! Writing what meets into a space that is lent.
ghost use Rattle.std.specs.Prelude.{◌≡◌};
ghost use Rattle.spaces.specs.Spaces.{state, SameSpace};
ghost use Rattle.finders.specs.Tables.{hit, offered};

use crate::entry::Entry;
use geometry::{Aabb, ColliderHandle, Handle};
use spaces::Space;

/// Writes the collider of a slot, if its box meets and there is room.
// `aabb` and `p` apart, as the question has them
pub fn offer_to(
    slot: u32,
    entry: Option<Entry>,
    aabb: Aabb,
    p: f32,
    space: &mut Space<ColliderHandle>,
)
    ensures same_space { SameSpace space.old space.new }
    ensures written { state space.new ≡ offered (state space.old) (hit slot entry aabb p) }
{
    if let Some(entry) = entry.filter(|entry| entry.aabb.loosened(p).intersects(aabb)) {
        space.push(ColliderHandle(Handle {
            slot,
            generation: entry.generation,
        }));
    }
}

/// Writes the collider of a slot after the first `count`, if its box meets and there is room, and says how many are written then.
// a count above the length is answered as it is: no space has so many places written
pub fn offer(
    slot: u32,
    entry: Option<Entry>,
    aabb: Aabb,
    p: f32,
    out: &mut [ColliderHandle],
    count: usize,
) -> usize
    ensures { record { all = out.new; count = result } ≡ offered (record { all = out.old; count = count }) (hit slot entry aabb p) }
{
    if count > out.len() {
        return count;
    }
    let mut space = Space::after(out, count);
    offer_to(slot, entry, aabb, p, &mut space);
    space.count()
}
