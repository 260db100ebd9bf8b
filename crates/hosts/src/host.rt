//! The geometry, as a trait with its laws.
ghost use Rattle.std.specs.Prelude.{◌≡◌};
ghost use Rattle.hosts.specs.Hosts.{Answers};
ghost use Rattle.hosts.specs.HostLaws.{Lawful};

use crate::questions::{CastQuery, Child, Sweep, TurningQuery};
use geometry::{Aabb, Pose, ShapeKind, Vector};
use outcomes::{CastOutcome, Overlap, PairKind, TurningOutcome};

/// The geometry of a bench. It answers every question, whatever the numbers, and the same one always alike.
pub trait Host {
    /// All that it answers, as one value.
    ghost answers: { Self → Answers };

    /// The laws of its answers, which each host proves.
    ghost lawful: { (h : Self) → Lawful (answers h) };

    /// The kind of a shape, if it is known.
    fn kind(&self, shape: u32) -> Option<ShapeKind>
        ensures { result ≡ (answers self.now).kind shape };

    /// The children of a Compound; none of any other shape.
    fn children(&self, shape: u32) -> &[Child]
        ensures { result.now ≡ (answers self.now).children shape };

    /// Whether it works at the pose.
    fn admits(&self, pose: Pose) -> bool
        ensures { result ≡ (answers self.now).admits pose };

    /// The pose `inner`, which is seen from `outer`.
    fn product(&self, outer: Pose, inner: Pose) -> Pose
        ensures { result ≡ (answers self.now).product outer inner };

    /// The point, as seen from the pose.
    fn inverse_point(&self, pose: Pose, point: Vector) -> Vector
        ensures { result ≡ (answers self.now).inverse_point pose point };

    /// The second pose, as seen from the first.
    fn relative_pose(&self, first: Pose, second: Pose) -> Pose
        ensures { result ≡ (answers self.now).relative_pose first second };

    /// The box of a shape at a pose.
    fn aabb(&self, shape: u32, pose: Pose) -> Aabb
        ensures { result ≡ (answers self.now).aabb shape pose };

    /// The pose at a fraction of a sweep.
    fn pose_at(&self, sweep: Sweep, fraction: f32) -> Pose
        ensures { result ≡ (answers self.now).pose_at sweep fraction };

    /// Casts at a target that is one piece.
    fn proxy_cast(&self, query: CastQuery, cap: f32) -> CastOutcome
        ensures { result ≡ (answers self.now).proxy_cast query cap };

    /// Casts at a target of many pieces.
    fn composite_cast(&self, query: CastQuery, pair: PairKind, cap: f32) -> Option<CastOutcome>
        ensures { result ≡ (answers self.now).composite_cast query pair cap };

    /// Casts a turning shape.
    fn turning_cast(&self, query: TurningQuery, pair: PairKind) -> TurningOutcome
        ensures { result ≡ (answers self.now).turning_cast query pair };

    /// Whether the second shape, at a pose as seen from the first, overlaps it.
    fn overlap(&self, relative: Pose, first: u32, second: u32) -> Overlap
        ensures { result ≡ (answers self.now).overlap relative first second };
}
