//! Turns and poses.
ghost use Rattle.std.specs.Prelude.{◌≡◌};
ghost use Rattle.geometry.specs.Poses.{identity, is_identity, ranged_rotation, ranged_pose, placed};

use crate::vector::Vector;
use numbers::in_range;

/// A turn, as a quaternion.
#[derive(Clone, Copy, PartialEq, Debug)]
pub struct Rotation {
    pub i: f32,
    pub j: f32,
    pub k: f32,
    pub w: f32,
}

/// A place and a turn.
#[derive(Clone, Copy, PartialEq, Default, Debug)]
pub struct Pose {
    pub translation: Vector,
    pub rotation: Rotation,
}

/// No turn.
impl Default for Rotation {
    ghost is_default = { λ turn. turn ≡ identity };

    fn default() -> Rotation {
        Rotation::identity()
    }
}

impl Rotation {
    /// No turn, with plain zeros.
    pub fn identity() -> Rotation
        ensures { result ≡ identity }
    {
        Rotation {
            i: 0.0,
            j: 0.0,
            k: 0.0,
            w: 1.0,
        }
    }

    /// Whether it is no turn, compared by number, so that minus zeros pass.
    pub fn is_identity(self) -> bool
        ensures { result ≡ is_identity self }
    {
        self == Rotation::identity()
    }

    /// Whether each number is at most `limit` in size.
    pub fn in_range(self, limit: f32) -> bool
        ensures { result ≡ ranged_rotation limit self }
    {
        in_range(self.i, limit)
            && in_range(self.j, limit)
            && in_range(self.k, limit)
            && in_range(self.w, limit)
    }
}

impl Pose {
    /// A place, with no turn.
    pub fn at(translation: Vector) -> Pose
        ensures { result ≡ placed translation }
    {
        Pose {
            translation,
            rotation: Rotation::identity(),
        }
    }

    /// Whether each of its seven numbers is at most `limit` in size.
    pub fn in_range(self, limit: f32) -> bool
        ensures { result ≡ ranged_pose limit self }
    {
        self.translation.in_range(limit) && self.rotation.in_range(limit)
    }
}
