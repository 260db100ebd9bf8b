//! Which pairs of colliders count, as a trait with its law.
ghost use Rattle.std.specs.Prelude.{◌≡◌, Bool, true, refl};
ghost use Rattle.geometry.specs.declared.handle.ColliderHandle.{ColliderHandle as Name};
ghost use Rattle.finders.specs.FilterLaws.{Symmetric};

use geometry::ColliderHandle;

/// Keeps or drops a pair of colliders, always alike for the same two.
pub trait Filter {
    /// Whether a pair is kept.
    ghost keeps: { Self → Name → Name → Bool };

    /// The order of the two does not matter, which each filter proves.
    ghost symmetric: { (f : Self) → Symmetric (keeps f) };

    /// Whether the pair is kept.
    fn keep(&self, first: ColliderHandle, second: ColliderHandle) -> bool
        ensures { result ≡ keeps self.now first second };
}

/// Keeps every pair.
#[derive(Clone, Copy)]
pub struct KeepAll;

impl Filter for KeepAll {
    ghost keeps = { λ _ _ _. true };

    ghost symmetric = { λ _ _ _. refl };

    fn keep(&self, _first: ColliderHandle, _second: ColliderHandle) -> bool {
        true
    }
}
