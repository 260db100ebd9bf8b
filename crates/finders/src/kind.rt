//! The kinds of tables, by how many slots they have and how many of these may hold something.
ghost use Rattle.std.specs.Prelude.{ℕ, Bool, true, ◌&&◌, ◌==◌};

/// A kind of tables.
pub trait Kind {
    /// Whether a table of the kind may have as many slots, of which at most so many hold something.
    ghost allows: { ℕ → ℕ → Bool };
}

/// As many slots as its capacity.
#[derive(Clone, Copy)]
pub struct Leaf;

impl Kind for Leaf {
    ghost allows = { λ slots capacity. slots == capacity };
}

/// 1,024 slots, of which at most 512 hold something.
#[derive(Clone, Copy)]
pub struct AtRest;

impl Kind for AtRest {
    ghost allows = { λ slots capacity. (slots == 1024) && (capacity == 512) };
}

/// Any number of slots, and any capacity.
#[derive(Clone, Copy)]
pub struct AnySize;

impl Kind for AnySize {
    ghost allows = { λ _ _. true };
}
