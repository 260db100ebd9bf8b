//! Spaces that a caller lends, which are written from the front.
#![tactic(auto)]

ghost use Rattle.std.specs.Prelude.{◌≡◌, ◌≤◌, length};

/// A space that is lent, of which the first `count` places are written.
// each function that writes to one says `SameSpace` of it: only then does its lender learn what was written
#[derive(Drop)]
pub struct Space<'a, T> {
    lent: &'a mut [T],
    count: usize,
    ghost inside: { count ≤ length lent.now },
}

impl<'a, T: Copy> Space<'a, T> {
    ghost use Rattle.std.specs.Prelude.{take};
    ghost use Rattle.spaces.specs.Spaces.{state, nothing_in, written_before, with, has_room, SameSpace};

    /// A space of which nothing is written yet.
    pub fn new(lent: &'a mut [T]) -> Space<'a, T>
        ensures same_reference { result.lent.ghost_name ≡ lent.entry.ghost_name }
        ensures nothing { state result ≡ nothing_in lent.old }
    {
        Space { lent, count: 0 }
    }

    /// A space of which the first `count` places are written already; all of them, where there are fewer.
    pub fn after(lent: &'a mut [T], count: usize) -> Space<'a, T>
        ensures same_reference { result.lent.ghost_name ≡ lent.entry.ghost_name }
        ensures written { state result ≡ written_before lent.old count }
    {
        let count = count.min(lent.len());
        Space { lent, count }
    }

    /// How many places are written.
    pub fn count(&self) -> usize
        ensures { result ≡ (state self.now).count }
    {
        self.written().len()
    }

    /// Whether as many values more find a place.
    pub fn has_room(&self, more: usize) -> bool
        ensures { result ≡ has_room (state self.now) more }
    {
        more <= self.lent.len() - self.count
    }

    /// Writes a value after the others, where there is room.
    // no error: what finds no place is left out, and the count tells how far it went
    pub fn push(&mut self, value: T)
        ensures same_space { SameSpace self.old self.new }
        ensures value { state self.new ≡ with (state self.old) value }
    {
        if self.has_room(1) {
            self.lent[self.count] = value;
            self.count += 1;
        }
    }

    /// What is written.
    pub fn written(&self) -> &[T]
        ensures { result.now ≡ take (state self.now).count (state self.now).all }
    {
        &self.lent[..self.count]
    }
}
