//! The list of a body's colliders.
ghost use Rattle.std.specs.Prelude.{◌≡◌, ◌<◌, length, IfSome};
ghost use Rattle.records.specs.Lists.{blank_handle, empty_list, counted, listed, place, listed_in, attached, detached};

use crate::fault::Fault;
use geometry::{ColliderHandle, Handle};

/// How many colliders a body may have.
pub const MOST_COLLIDERS: usize = 8;

/// A table of eight handles, of which the first `count` are listed, in the order in which they were attached.
// A table and a count, and no `ArrayVec`: it lies in lent memory, which may hold any count.
#[derive(Clone, Copy)]
pub struct ColliderList {
    pub handles: [ColliderHandle; MOST_COLLIDERS],
    pub count: u32,
}

/// What stands in an entry that is not listed.
fn blank() -> ColliderHandle
    ensures { result ≡ blank_handle }
{
    ColliderHandle(Handle {
        slot: 0,
        generation: 0,
    })
}

impl ColliderList {
    /// A list of nothing.
    pub fn empty() -> ColliderList
        ensures { result ≡ empty_list }
    {
        ColliderList {
            handles: [blank(); MOST_COLLIDERS],
            count: 0,
        }
    }

    /// Whether the count is at most the table's eight.
    pub fn is_counted(&self) -> bool
        ensures { result ≡ counted self.now }
    {
        self.count as usize <= self.handles.len()
    }

    /// The handles that are listed; all eight where the count is above that.
    pub fn as_slice(&self) -> &[ColliderHandle]
        ensures { result.now ≡ listed self.now }
    {
        let count = (self.count as usize).min(MOST_COLLIDERS);
        &self.handles[..count]
    }

    /// Where the handle first stands.
    pub fn position_of(&self, handle: ColliderHandle) -> Option<usize>
        ensures value { result ≡ place handle 0 (listed self.now) }
        ensures within { IfSome result (λ i. i < length (listed self.now)) }
    {
        self.as_slice().iter().position(|other| *other == handle)
    }

    /// Whether the handle is listed.
    pub fn contains(&self, handle: ColliderHandle) -> bool
        ensures { result ≡ listed_in handle (listed self.now) }
    {
        self.as_slice().contains(&handle)
    }

    /// Puts a handle last.
    pub fn attach(&mut self, handle: ColliderHandle) -> Result<(), Fault>
        ensures { (self.new, result) ≡ attached self.old handle }
    {
        let count = self.count as usize;
        if count >= MOST_COLLIDERS {
            return Err(Fault::Full);
        }
        self.handles[count] = handle;
        self.count += 1;
        Ok(())
    }

    /// Takes a handle out; the later ones move up, in their order.
    pub fn detach(&mut self, handle: ColliderHandle) -> Result<(), Fault>
        ensures { (self.new, result) ≡ detached self.old handle }
    {
        let at = self.position_of(handle).ok_or(Fault::NotLive(0))?;
        let count = self.as_slice().len();
        self.handles.copy_within(at + 1..count, at);
        self.handles[count - 1] = blank();
        self.count = (count - 1) as u32;
        Ok(())
    }
}
