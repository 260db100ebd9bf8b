//! The broad phase, as a trait with its laws: which colliders may meet a box.
ghost use Rattle.std.specs.Prelude.{◌≡◌, min, length, take, drop};
ghost use Rattle.finders.specs.Finders.{Meaning, Listing, cleared, set_in, remove_in};
ghost use Rattle.finders.specs.FinderLaws.{Lawful};

use crate::finder_fault::FinderFault;
use geometry::{Aabb, ColliderHandle};

/// Holds a box for each of some colliders, at most one for each slot, and finds those that meet a box.
pub trait Finder {
    /// Its capacity, and what each of its slots holds.
    ghost meaning: { Self → Meaning };

    /// What it reports, in its own order.
    ghost listed: { Self → Listing };

    /// The laws of its reports, which each finder proves.
    ghost lawful: { (d : Self) → Lawful (meaning d) (listed d) };

    /// How many colliders it holds at most.
    fn capacity(&self) -> usize
        ensures { result ≡ (meaning self.now).capacity };

    /// Holds a collider's box, in the place of what its slot held. It refuses, and changes nothing, only for a slot that holds nothing,
    /// if that lies past its last slot or the capacity is reached.
    fn set(&mut self, collider: ColliderHandle, aabb: Aabb) -> Result<(), FinderFault>
        ensures { (meaning self.new, result) ≡ set_in (meaning self.old) collider aabb };

    /// Removes a collider, if it is held. A collider of another generation of the slot stays.
    fn remove(&mut self, collider: ColliderHandle)
        ensures { meaning self.new ≡ remove_in (meaning self.old) collider };

    /// Removes every collider.
    fn clear(&mut self)
        ensures { meaning self.new ≡ cleared (meaning self.old) };

    // `aabb` and `p` come from two places, the box that is swept and the step: a struct of both would be made for this call alone.
    /// Writes the colliders whose box, loosened by `p`, meets `aabb` to the front of `out`, as far as there is room, and says how many it wrote.
    fn report(&self, aabb: Aabb, p: f32, out: &mut [ColliderHandle]) -> usize
        ensures count { result ≡ min (length (listed self.now aabb p)) (length out.old) }
        ensures front { take result out.new ≡ take result (listed self.now aabb p) }
        ensures rest { drop result out.new ≡ drop result out.old };
}
