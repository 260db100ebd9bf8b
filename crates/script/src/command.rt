//! What a line says.
use casts::Flight;
use geometry::{Aabb, ShapeKind, Vector};
use hosts::Child;
use hosts::children::MOST_CHILDREN;
use recorded::Row;

/// The children of a Compound: the first `count` of the list. The others are blank.
// no `ArrayVec`: that is not copied
#[derive(Clone, Copy)]
pub struct Children {
    pub list: [Child; MOST_CHILDREN],
    pub count: u32,
}

/// Which host a hall has.
#[derive(Clone, Copy, PartialEq, Eq, Debug)]
pub enum HostChoice {
    Slide,
    Recorded,
}

/// A line that was read.
#[derive(Clone, Copy)]
pub enum Command {
    /// No word.
    Blank,
    /// A new hall. Its name is the word at place 1.
    Hall,
    Host(HostChoice),
    /// A box by its half sides.
    Cuboid(Vector),
    Compound(Children),
    /// A listed shape: its kind, its box at the origin, and its children.
    Listed(ShapeKind, Aabb, Children),
    Row(Row),
    Cast(Flight),
}
