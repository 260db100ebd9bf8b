//! Poses that never turn: the places up to four million, with sums for products.
ghost use Rattle.std.specs.Prelude.{◌≡◌};
ghost use Rattle.hosts.specs.Turnless.{admitted, product_of, inverse_of, relative_of, pose_along, stroke_of, InsideASweep};

use crate::questions::Sweep;
use geometry::{Pose, Vector};

/// The size up to which a place goes.
const REACH: f32 = 4_000_000.0;

/// Whether the place is within reach and there is no turn.
pub fn admits(pose: Pose) -> bool
    ensures { result ≡ admitted pose }
{
    pose.translation.in_range(REACH) && pose.rotation.is_identity()
}

/// The pose `inner`, which is seen from `outer`: the sum of the places.
pub fn product(outer: Pose, inner: Pose) -> Pose
    ensures { result ≡ product_of outer inner }
{
    Pose::at(outer.translation.plus(inner.translation))
}

/// The point, as seen from the pose.
pub fn inverse_point(pose: Pose, point: Vector) -> Vector
    ensures { result ≡ inverse_of pose point }
{
    point.minus(pose.translation)
}

/// The second pose, as seen from the first.
pub fn relative_pose(first: Pose, second: Pose) -> Pose
    ensures { result ≡ relative_of first second }
{
    Pose::at(second.translation.minus(first.translation))
}

/// The pose at a fraction of a sweep; the centre does not matter where nothing turns.
pub fn pose_at(sweep: Sweep, fraction: f32) -> Pose
    ensures { result ≡ pose_along sweep fraction }
{
    Pose::at(
        sweep
            .start
            .translation
            .toward(sweep.end.translation, fraction),
    )
}

/// The way from a sweep's start to its end.
pub fn stroke(sweep: Sweep) -> Vector
    ensures { result ≡ stroke_of sweep }
{
    sweep.end.translation.minus(sweep.start.translation)
}

/// A pose strictly inside a sweep is in range and admitted if both ends are, and so are its products.
pub fn poses_inside_a_sweep_are_admitted()
    ensures { InsideASweep }
{}
