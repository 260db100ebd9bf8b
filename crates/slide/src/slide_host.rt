//! The slide host's answers to each question.
ghost use Rattle.slide.specs.Slides.{slide_answers};
ghost use Rattle.slide.specs.SlideLaws.{slide_lawful};

use crate::shapes::Slide;
use geometry::{Aabb, Pose, ShapeKind, Vector};
use hosts::{CastQuery, Child, Host, Sweep, TurningQuery, turnless};
use outcomes::{CastOutcome, Overlap, PairKind, TurningOutcome, Unsupported};
use strokes::{answer, answer_if_met, meeting};

impl<'a> Host for Slide<'a> {
    ghost answers = { λ h. slide_answers h.shapes.now h.children.now };

    ghost lawful = { λ h. slide_lawful h.shapes.now h.children.now };

    fn kind(&self, shape: u32) -> Option<ShapeKind> {
        match self.half_sides(shape) {
            Some(_) => Some(ShapeKind::Proxy),
            None => (!self.parts(shape).is_empty()).then_some(ShapeKind::Compound),
        }
    }

    fn children(&self, shape: u32) -> &[Child] {
        self.parts(shape)
    }

    // these five answers stand in both hosts: a default in `Host` would be one for hosts whose poses turn, too
    fn admits(&self, pose: Pose) -> bool {
        turnless::admits(pose)
    }

    fn product(&self, outer: Pose, inner: Pose) -> Pose {
        turnless::product(outer, inner)
    }

    fn inverse_point(&self, pose: Pose, point: Vector) -> Vector {
        turnless::inverse_point(pose, point)
    }

    fn relative_pose(&self, first: Pose, second: Pose) -> Pose {
        turnless::relative_pose(first, second)
    }

    fn aabb(&self, shape: u32, pose: Pose) -> Aabb {
        // a match: with `or_else` and `unwrap_or` the proof did not close
        match self.cuboid_at(shape, pose) {
            Some(cuboid) => cuboid,
            None => self
                .union_box(self.parts(shape), pose)
                .unwrap_or(Aabb::around(pose.translation, Vector::zero())),
        }
    }

    fn pose_at(&self, sweep: Sweep, fraction: f32) -> Pose {
        turnless::pose_at(sweep, fraction)
    }

    fn proxy_cast(&self, query: CastQuery, cap: f32) -> CastOutcome {
        let met = self
            .cuboid_at(query.fast, query.sweep.start)
            .zip(self.cuboid_at(query.target, query.pose))
            .and_then(|(fast, target)| meeting(fast, target, turnless::stroke(query.sweep)));
        answer(met, cap)
    }

    fn composite_cast(&self, query: CastQuery, pair: PairKind, cap: f32) -> Option<CastOutcome> {
        let fast = self.cuboid_at(query.fast, query.sweep.start)?;
        let met = self.first_meeting(self.parts(query.target), fast, query, pair);
        answer_if_met(met, cap)
    }

    fn turning_cast(&self, query: TurningQuery, pair: PairKind) -> TurningOutcome {
        Err(Unsupported)
    }

    fn overlap(&self, relative: Pose, first: u32, second: u32) -> Overlap {
        let meets = match self.cuboid_at(first, Pose::at(Vector::zero())) {
            Some(cuboid) => self.meets_shape(cuboid, second, relative),
            None => self.any_meets(self.parts(first), second, relative),
        };
        Ok(meets)
    }
}
