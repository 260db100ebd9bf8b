//! Exact equality of numbers and poses.
ghost use Rattle.std.specs.Prelude.{◌≡◌};
ghost use Rattle.records.specs.Equality.{same_number, same_vector, same_rotation, same_pose};

use geometry::{Pose, Rotation, Vector};
use std::num::f32_to_bits_with_nan;

/// Whether both are one and the same value. Minus zero is not zero, and a NaN is a NaN.
// by their bits: `==` takes the zeros for one, and no NaN for itself
pub fn same_number(a: f32, b: f32) -> bool
    ensures { result ≡ same_number a b }
{
    f32_to_bits_with_nan(a) == f32_to_bits_with_nan(b)
}

pub fn same_vector(a: Vector, b: Vector) -> bool
    ensures { result ≡ same_vector a b }
{
    same_number(a.x, b.x) && same_number(a.y, b.y) && same_number(a.z, b.z)
}

fn same_rotation(a: Rotation, b: Rotation) -> bool
    ensures { result ≡ same_rotation a b }
{
    same_number(a.i, b.i) && same_number(a.j, b.j) && same_number(a.k, b.k) && same_number(a.w, b.w)
}

/// Whether both are one and the same pose, in each of its seven numbers.
pub fn same_pose(a: Pose, b: Pose) -> bool
    ensures { result ≡ same_pose a b }
{
    same_vector(a.translation, b.translation) && same_rotation(a.rotation, b.rotation)
}
