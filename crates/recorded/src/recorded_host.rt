//! The recorded host's answers to each question.
ghost use Rattle.recorded.specs.Records.{recorded_answers};
ghost use Rattle.recorded.specs.RecordLaws.{recorded_lawful};

use crate::rows::Recorded;
use geometry::{Aabb, Pose, ShapeKind, Vector};
use hosts::{CastQuery, Child, Host, Sweep, TurningQuery, turnless};
use outcomes::{CastOutcome, Overlap, PairKind, TurningOutcome};

impl<'a> Host for Recorded<'a> {
    ghost answers = { λ h. recorded_answers h.shapes.now h.children.now h.rows.now };

    ghost lawful = { λ h. recorded_lawful h.shapes.now h.children.now h.rows.now };

    fn kind(&self, shape: u32) -> Option<ShapeKind> {
        self.known(shape).map(|listed| listed.kind)
    }

    fn children(&self, shape: u32) -> &[Child] {
        self.parts(shape)
    }

    // these five answers stand in both hosts: a default in `Host` would be one for hosts whose poses turn, too
    fn admits(&self, pose: Pose) -> bool {
        turnless::admits(pose)
    }

    fn product(&self, outer: Pose, inner: Pose) -> Pose {
        turnless::product(outer, inner)
    }

    fn inverse_point(&self, pose: Pose, point: Vector) -> Vector {
        turnless::inverse_point(pose, point)
    }

    fn relative_pose(&self, first: Pose, second: Pose) -> Pose {
        turnless::relative_pose(first, second)
    }

    fn aabb(&self, shape: u32, pose: Pose) -> Aabb {
        let empty = Aabb::around(pose.translation, Vector::zero());
        self.known(shape)
            .map_or(empty, |listed| listed.aabb.moved(pose.translation))
    }

    fn pose_at(&self, sweep: Sweep, fraction: f32) -> Pose {
        turnless::pose_at(sweep, fraction)
    }

    fn proxy_cast(&self, query: CastQuery, cap: f32) -> CastOutcome {
        self.cast(query.fast, query.target, cap)
    }

    fn composite_cast(&self, query: CastQuery, pair: PairKind, cap: f32) -> Option<CastOutcome> {
        Some(self.cast(query.fast, query.target, cap))
    }

    fn turning_cast(&self, query: TurningQuery, pair: PairKind) -> TurningOutcome {
        Ok(
            self.row_of(query.fast, query.target)
                .and_then(|row| row.time),
        )
    }

    fn overlap(&self, relative: Pose, first: u32, second: u32) -> Overlap {
        let overlap = self.row_of(first, second).and_then(|row| row.overlap);
        Ok(overlap.unwrap_or(false))
    }
}
