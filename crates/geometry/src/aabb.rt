//! Boxes with a least and a greatest number on each axis.
ghost use Rattle.std.specs.Prelude.{◌≡◌};
ghost use Rattle.geometry.specs.Boxes.{around_of, moved_by, loosened_by, merged_of, meet_of};

use crate::vector::Vector;
use numbers::{greater, lesser};

/// A box by its least and its greatest number on each axis.
#[derive(Clone, Copy, PartialEq, Debug)]
pub struct Aabb {
    pub mins: Vector,
    pub maxs: Vector,
}

impl Aabb {
    /// The box around `centre` with the given half sides.
    pub fn around(centre: Vector, half: Vector) -> Aabb
        ensures { result ≡ around_of centre half }
    {
        Aabb {
            mins: centre.minus(half),
            maxs: centre.plus(half),
        }
    }

    /// The box, moved to a place that it was listed at the origin of.
    pub fn moved(self, place: Vector) -> Aabb
        ensures { result ≡ moved_by self place }
    {
        Aabb {
            mins: place.plus(self.mins),
            maxs: place.plus(self.maxs),
        }
    }

    /// The box with each side moved out by `by`.
    pub fn loosened(self, by: f32) -> Aabb
        ensures { result ≡ loosened_by self by }
    {
        Aabb {
            mins: self.mins.minus(Vector::splat(by)),
            maxs: self.maxs.plus(Vector::splat(by)),
        }
    }

    /// The least box that holds both.
    pub fn merged(self, other: Aabb) -> Aabb
        ensures { result ≡ merged_of self other }
    {
        Aabb {
            mins: Vector {
                x: lesser(self.mins.x, other.mins.x),
                y: lesser(self.mins.y, other.mins.y),
                z: lesser(self.mins.z, other.mins.z),
            },
            maxs: Vector {
                x: greater(self.maxs.x, other.maxs.x),
                y: greater(self.maxs.y, other.maxs.y),
                z: greater(self.maxs.z, other.maxs.z),
            },
        }
    }

    /// Whether they meet: on no axis one's least exceeds the other's greatest.
    pub fn intersects(self, other: Aabb) -> bool
        ensures { result ≡ meet_of self other }
    {
        self.mins.x <= other.maxs.x
            && other.mins.x <= self.maxs.x
            && self.mins.y <= other.maxs.y
            && other.mins.y <= self.maxs.y
            && self.mins.z <= other.maxs.z
            && other.mins.z <= self.maxs.z
    }
}
