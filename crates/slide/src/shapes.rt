//! The slide host: boxes and Compounds of boxes, which never turn.
ghost use Rattle.std.specs.Prelude.{◌≡◌, None};
ghost use Rattle.slide.specs.Slides.{half_sides, sided, cuboid_at, child_fits, children_of, child_box, union_of, first_meeting, listed_of, meets_child, meets_shape, any_meets};
ghost use Rattle.std.specs.List.{slice_get, list_all};

use geometry::{Aabb, Pose, Vector};
use hosts::children::part;
use hosts::{CastQuery, Child, turnless};
use numbers::RANGE;
use outcomes::PairKind;
use strokes::{counted, meeting, sooner};

/// A listed shape: a box by its half sides, or a Compound by the place of its first child and their count.
// the children of all Compounds stand in one list that the caller lends: fixed memory, so a place in it and no tree
#[derive(Clone, Copy)]
pub enum Shape {
    Cuboid(Vector),
    Group { first: u32, count: u32 },
}

/// The shapes of a hall, and the children of the Compounds among them. What is out of range counts as absent.
#[derive(Clone, Copy)]
pub struct Slide<'a> {
    pub shapes: &'a [Shape],
    pub children: &'a [Child],
}

/// Whether the half sides are from 0 to a million.
fn is_sided(half: Vector) -> bool
    ensures { result ≡ sided half }
{
    half.in_range(RANGE) && 0.0 <= half.x && 0.0 <= half.y && 0.0 <= half.z
}

impl Slide<'_> {
    /// The half sides of a known box.
    pub(crate) fn half_sides(&self, shape: u32) -> Option<Vector>
        ensures { result ≡ half_sides self.now.shapes.now shape }
    {
        match self.shapes.get(shape as usize)? {
            Shape::Cuboid(half) => is_sided(*half).then_some(*half),
            Shape::Group { .. } => None,
        }
    }

    /// A known box, where it stands at `pose`.
    pub(crate) fn cuboid_at(&self, shape: u32, pose: Pose) -> Option<Aabb>
        ensures { result ≡ cuboid_at self.now.shapes.now shape pose }
    {
        self.half_sides(shape)
            .map(|half| Aabb::around(pose.translation, half))
    }

    /// Whether a child is a known box at a pose in range that does not turn.
    fn child_fits(&self, child: &Child) -> bool
        ensures { result ≡ child_fits self.now.shapes.now child.now }
    {
        self.half_sides(child.shape).is_some()
            && child.pose.in_range(RANGE)
            && child.pose.rotation.is_identity()
    }

    // the same line in both hosts, over each one's own test: a function that takes the test would ask that it may be called
    fn all_fit(&self, children: &[Child]) -> bool
        ensures { result ≡ list_all (child_fits self.now.shapes.now) children.now }
    {
        children.iter().all(|child| self.child_fits(child))
    }

    /// The children that are listed of a shape.
    fn listed(&self, shape: u32) -> &[Child]
        ensures { result.now ≡ listed_of self.now.children.now (slice_get self.now.shapes.now shape) }
    {
        match self.shapes.get(shape as usize) {
            Some(Shape::Group { first, count }) => part(self.children, *first, *count),
            _ => &[],
        }
    }

    /// The children of a known Compound: if one of them does not fit, the whole Compound is absent.
    pub fn parts(&self, shape: u32) -> &[Child]
        ensures { result.now ≡ children_of self.now.shapes.now self.now.children.now shape }
    {
        let listed = self.listed(shape);
        if self.all_fit(listed) { listed } else { &[] }
    }

    /// The box of a child of a Compound that stands at `pose`.
    fn child_box(&self, pose: Pose, child: &Child) -> Aabb
        ensures { result ≡ child_box self.now.shapes.now pose child.now }
    {
        let place = pose.translation.plus(child.pose.translation);
        let half = self.half_sides(child.shape).unwrap_or(Vector::zero());
        Aabb::around(place, half)
    }

    /// The union of the boxes of children of a Compound that stands at `pose`.
    pub(crate) fn union_box(&self, children: &[Child], pose: Pose) -> Option<Aabb>
        ensures { result ≡ union_of self.now.shapes.now pose children.now }
    {
        let (first, rest) = children.split_first()?;
        let first = self.child_box(pose, first);
        let union = rest.iter().fold(
            first,
            |union, child| union.merged(self.child_box(pose, child)),
        );
        Some(union)
    }

    /// When the box `fast`, moved along a sweep, first meets a child of the target, of the meetings that count for the pair.
    pub(crate) fn first_meeting(
        &self,
        children: &[Child],
        fast: Aabb,
        query: CastQuery,
        pair: PairKind,
    ) -> Option<f32>
        ensures { result ≡ first_meeting self.now.shapes.now fast query pair None children.now }
    {
        let stroke = turnless::stroke(query.sweep);
        children.iter().fold(None, |best, child| {
            let met = meeting(fast, self.child_box(query.pose, child), stroke);
            sooner(best, counted(met, pair))
        })
    }

    /// Whether a box meets that of some child of a Compound that stands at `pose`.
    fn meets_child(&self, children: &[Child], pose: Pose, aabb: Aabb) -> bool
        ensures { result ≡ meets_child self.now.shapes.now pose aabb children.now }
    {
        children
            .iter()
            .any(|child| aabb.intersects(self.child_box(pose, child)))
    }

    /// Whether a box meets a shape that stands at `pose`.
    pub fn meets_shape(&self, aabb: Aabb, shape: u32, pose: Pose) -> bool
        ensures { result ≡ meets_shape self.now.shapes.now self.now.children.now aabb shape pose }
    {
        match self.cuboid_at(shape, pose) {
            Some(cuboid) => aabb.intersects(cuboid),
            None => self.meets_child(self.parts(shape), pose, aabb),
        }
    }

    /// Whether some child of a Compound at the origin meets a shape that stands at `pose`.
    pub fn any_meets(&self, children: &[Child], shape: u32, pose: Pose) -> bool
        ensures { result ≡ any_meets self.now.shapes.now self.now.children.now shape pose children.now }
    {
        let origin = Pose::at(Vector::zero());
        children.iter().any(|child| self.meets_shape(self.child_box(origin, child), shape, pose))
    }
}
