//! Vectors of three numbers.
ghost use Rattle.std.specs.Prelude.{◌≡◌};
ghost use Rattle.geometry.specs.Vectors.{origin, uniform, sum_of, difference_of, along_of, ranged_vector};

use numbers::{in_range, lerp};

/// Three numbers: a place, a stroke from one place to another, or a velocity.
#[derive(Clone, Copy, PartialEq, Default, Debug)]
pub struct Vector {
    pub x: f32,
    pub y: f32,
    pub z: f32,
}

impl Vector {
    /// The place that all others are seen from.
    pub fn zero() -> Vector
        ensures { result ≡ origin }
    {
        Vector {
            x: 0.0,
            y: 0.0,
            z: 0.0,
        }
    }

    /// The same number on each axis.
    pub fn splat(value: f32) -> Vector
        ensures { result ≡ uniform value }
    {
        Vector {
            x: value,
            y: value,
            z: value,
        }
    }

    /// The sum, axis by axis.
    pub fn plus(self, other: Vector) -> Vector
        ensures { result ≡ sum_of self other }
    {
        Vector {
            x: self.x + other.x,
            y: self.y + other.y,
            z: self.z + other.z,
        }
    }

    /// The difference, axis by axis.
    pub fn minus(self, other: Vector) -> Vector
        ensures { result ≡ difference_of self other }
    {
        Vector {
            x: self.x - other.x,
            y: self.y - other.y,
            z: self.z - other.z,
        }
    }

    /// The place at `fraction` of the way to `end`.
    pub fn toward(self, end: Vector, fraction: f32) -> Vector
        ensures { result ≡ along_of self end fraction }
    {
        Vector {
            x: lerp(self.x, end.x, fraction),
            y: lerp(self.y, end.y, fraction),
            z: lerp(self.z, end.z, fraction),
        }
    }

    /// Whether each number is at most `limit` in size.
    pub fn in_range(self, limit: f32) -> bool
        ensures { result ≡ ranged_vector limit self }
    {
        in_range(self.x, limit) && in_range(self.y, limit) && in_range(self.z, limit)
    }
}
