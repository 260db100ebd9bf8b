//! Short lists that lie in the value itself, and are copied with it.
#![tactic(auto)]

ghost use Rattle.std.specs.Prelude.{◌≡◌, ◌<◌, ◌≤◌, ◌==◌, [], ◌∷◌, ◌++◌, length};

use std::alloc::AllocError;
use std::marker::Model;

/// What stands in the places of a list that are not used.
pub trait Blank: Copy {
    ghost blank: { Self };

    fn blank() -> Self
        ensures { result ≡ blank };
}

impl<T: Copy> Blank for Option<T> {
    ghost use Rattle.std.specs.Prelude.{None};

    ghost blank = { None };

    fn blank() -> Option<T> {
        None
    }
}

/// A list of at most `N` values.
// no `ArrayVec`: that is not copied
#[derive(Copy)]
pub struct ShortList<T: Blank, const N: usize> {
    places: [T; N],
    count: usize,
}

impl<T: Blank, const N: usize> Model for ShortList<T, N> {
    ghost use Rattle.std.specs.Prelude.{◌≡◌, ◌-◌, ◌≤◌, ◌++◌, length, take, drop, replicate};
    ghost use Rattle.short_lists.specs.ShortLists.{Listed, listed_code};
    ghost use Rattle.short_lists.specs.Places.{given_back};

    ghost Value = { Listed T };

    ghost coded = { listed_code T.code };

    ghost view = { λ s. record { items = take s.count s.places } };

    ghost invariant = { λ s. (s.count ≤ N) × (length s.places ≡ N) × (drop s.count s.places ≡ replicate (N - s.count) T.blank) };

    ghost inverse = { λ v. record { places = v.items ++ replicate (N - length v.items) T.blank; count = length v.items } };

    ghost inverse_ok = { λ s h i. let e = given_back s.places s.count N T.blank h.0 h.1 h.2 in record { places = e.0 i; count = e.1 i } };
}

// by hand: a derived clone is made value by value, and need not be the list itself
impl<T: Blank, const N: usize> Clone for ShortList<T, N> {
    ghost is_clone = { λ list clone. clone ≡ list };

    ghost is_infallible = { λ _. Unit {0} };

    fn clone(&self) -> Result<Self, AllocError> {
        Ok(*self)
    }
}

impl<T: Blank, const N: usize> ShortList<T, N> {
    /// An empty list.
    pub fn new() -> Self
        ensures { result.items ≡ [] }
    {
        ShortList {
            places: [T::blank(); N],
            count: 0,
        }
    }

    /// How many values are in it.
    pub fn len(&self) -> usize
        ensures { result ≡ length self.now.items }
    {
        self.as_slice().len()
    }

    pub fn is_empty(&self) -> bool
        ensures { result ≡ (length self.now.items == 0) }
    {
        self.count == 0
    }

    pub fn is_full(&self) -> bool
        ensures { result ≡ (length self.now.items == N) }
    {
        self.count == N
    }

    /// The values, in order.
    pub fn as_slice(&self) -> &[T]
        ensures { result.now ≡ self.now.items }
    {
        &self.places[..self.count]
    }

    /// One value more at the end, where there is room; a full list stays as it is.
    pub fn push(&mut self, value: T)
        ensures room { length self.old.items < N → self.new.items ≡ self.old.items ++ value ∷ [] }
        ensures full { N ≤ length self.old.items → self.new.items ≡ self.old.items }
    {
        if self.count < N {
            self.places[self.count] = value;
            self.count += 1;
        }
    }
}
