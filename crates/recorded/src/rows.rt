//! The lists of a recorded host, and what is read from them.
ghost use Rattle.std.specs.Prelude.{◌≡◌};
ghost use Rattle.std.specs.List.{list_all};
ghost use Rattle.recorded.specs.Records.{ranged_box, entry_of, child_fits, listed_of, children_of, shape_of, from_zero, row_fits, counts, row_of, at_cap, cast_of};

use geometry::{Aabb, ShapeKind};
use hosts::Child;
use hosts::children::part;
use numbers::RANGE;
use outcomes::CastOutcome;

/// A listed shape: its kind, its box at the origin and, of a Compound, the place of its first child and their count.
// the children of all Compounds stand in one list that the caller lends: fixed memory, so a place in it and no tree
#[derive(Clone, Copy)]
pub struct Listed {
    pub kind: ShapeKind,
    pub aabb: Aabb,
    pub first: u32,
    pub count: u32,
}

/// What was recorded of a fast and a target shape.
#[derive(Clone, Copy)]
pub struct Row {
    pub fast: u32,
    pub target: u32,
    pub cast: CastOutcome,
    pub time: Option<f32>,
    pub overlap: Option<bool>,
}

/// The shapes of a hall, the children of the Compounds among them, and the rows. What is out of range counts as absent.
#[derive(Clone, Copy)]
pub struct Recorded<'a> {
    pub shapes: &'a [Listed],
    pub children: &'a [Child],
    pub rows: &'a [Row],
}

/// Whether each number is in range, and no least number is above the greatest of its axis.
fn box_in_range(aabb: Aabb) -> bool
    ensures { result ≡ ranged_box aabb }
{
    aabb.mins.in_range(RANGE)
        && aabb.maxs.in_range(RANGE)
        && aabb.mins.x <= aabb.maxs.x
        && aabb.mins.y <= aabb.maxs.y
        && aabb.mins.z <= aabb.maxs.z
}

/// Whether a number is from 0 to `limit`, and not minus zero.
fn from_zero(x: f32, limit: f32) -> bool
    ensures { result ≡ from_zero limit x }
{
    0.0 <= x && x <= limit && !x.is_sign_negative()
}

/// What a recorded cast answers at a cap: a fraction above the cap says only that the shapes stay apart up to it.
fn at_cap(cast: CastOutcome, cap: f32) -> CastOutcome
    ensures { result ≡ at_cap cast cap }
{
    if cap < cast.fraction() {
        CastOutcome::Separated(cap)
    } else {
        cast
    }
}

impl Row {
    /// Whether its fraction and its time, if there is one, are in range.
    fn fits(&self) -> bool
        ensures { result ≡ row_fits self.now }
    {
        from_zero(self.cast.fraction(), 1.0) && self.time.is_none_or(|time| from_zero(time, RANGE))
    }

    /// Whether it has both shape numbers and is in range.
    fn counts(&self, fast: u32, target: u32) -> bool
        ensures { result ≡ counts self.now fast target }
    {
        self.fast == fast && self.target == target && self.fits()
    }
}

impl Recorded<'_> {
    /// The entry of a shape number, if its box is in range.
    fn entry(&self, shape: u32) -> Option<Listed>
        ensures { result ≡ entry_of self.now.shapes.now shape }
    {
        let listed = self.shapes.get(shape as usize).copied();
        listed.filter(|listed| box_in_range(listed.aabb))
    }

    /// Whether a child is a known shape and no Compound, at a pose in range that does not turn.
    fn child_fits(&self, child: &Child) -> bool
        ensures { result ≡ child_fits self.now.shapes.now child.now }
    {
        self.entry(child.shape)
            .is_some_and(|listed| listed.kind != ShapeKind::Compound)
            && child.pose.in_range(RANGE)
            && child.pose.rotation.is_identity()
    }

    // the same line in both hosts, over each one's own test: a function that takes the test would ask that it may be called
    fn all_fit(&self, children: &[Child]) -> bool
        ensures { result ≡ list_all (child_fits self.now.shapes.now) children.now }
    {
        children.iter().all(|child| self.child_fits(child))
    }

    /// The children that are listed of a Compound; none of any other shape, whatever it lists.
    fn listed(&self, shape: u32) -> &[Child]
        ensures { result.now ≡ listed_of self.now.children.now (entry_of self.now.shapes.now shape) }
    {
        match self.entry(shape) {
            Some(listed) if listed.kind == ShapeKind::Compound => {
                part(self.children, listed.first, listed.count)
            }
            _ => &[],
        }
    }

    /// The children of a known Compound: if one of them does not fit, the whole Compound is absent.
    pub fn parts(&self, shape: u32) -> &[Child]
        ensures { result.now ≡ children_of self.now.shapes.now self.now.children.now shape }
    {
        let listed = self.listed(shape);
        if self.all_fit(listed) { listed } else { &[] }
    }

    /// The entry of a known shape. A Compound without children is absent.
    pub fn known(&self, shape: u32) -> Option<Listed>
        ensures { result ≡ shape_of self.now.shapes.now self.now.children.now shape }
    {
        let listed = self.entry(shape)?;
        let is_empty = listed.kind == ShapeKind::Compound && self.parts(shape).is_empty();
        (!is_empty).then_some(listed)
    }

    /// The first row that counts for both shape numbers.
    pub(crate) fn row_of(&self, fast: u32, target: u32) -> Option<Row>
        ensures { result ≡ row_of self.now.rows.now fast target }
    {
        self.rows
            .iter()
            .copied()
            .find(|row| row.counts(fast, target))
    }

    /// What a proxy or composite cast answers at a cap; without a row the shapes stay apart up to it.
    pub fn cast(&self, fast: u32, target: u32, cap: f32) -> CastOutcome
        ensures { result ≡ cast_of (row_of self.now.rows.now fast target) cap }
    {
        self.row_of(fast, target)
            .map_or(CastOutcome::Separated(cap), |row| at_cap(row.cast, cap))
    }
}
