//! How a fast shape is swept.
ghost use Rattle.std.specs.Prelude.{◌≡◌};
ghost use Rattle.pair_casts.specs.FastShapes.{piece, pieces, compound_of, kind_of, motion_of, fast_shape};

use casts::{child_sweep, is_piece};
use geometry::{Pose, ShapeKind, Vector};
use hosts::children::MOST_CHILDREN;
use hosts::{Child, Host, Motion, Sweep};
use short_lists::{Blank, ShortList};

/// A piece of a fast shape, with its own way.
#[derive(Clone, Copy, Default)]
pub struct FastSubShape {
    pub shape: u32,
    pub sweep: Sweep,
}

impl Blank for FastSubShape {
    ghost use Rattle.pair_casts.specs.Blanks.{no_piece};

    ghost blank = { no_piece };

    fn blank() -> FastSubShape {
        let rest = Pose::at(Vector::zero());
        FastSubShape {
            shape: 0,
            sweep: Sweep {
                start: rest,
                end: rest,
                centre: Vector::zero(),
            },
        }
    }
}

/// The pieces of a Compound.
pub type SubShapes = ShortList<FastSubShape, MOST_CHILDREN>;

/// How a fast shape is swept.
#[derive(Clone, Copy)]
pub enum FastShapeKind {
    /// One piece.
    Convex(FastSubShape),
    /// The pieces of a Compound, each by itself.
    Compound(SubShapes),
    /// As one that turns, by its velocities.
    Nonlinear,
}

/// A fast shape, described once for all its pairs.
#[derive(Clone, Copy)]
pub struct FastShape {
    pub shape: u32,
    pub kind: FastShapeKind,
    pub motion: Motion,
}

/// A child of a Compound as a piece.
fn piece<H: Host>(host: &H, sweep: Sweep, child: Child) -> FastSubShape
    ensures { result ≡ piece (H.answers host.now) sweep child }
{
    FastSubShape {
        shape: child.shape,
        sweep: child_sweep(host, sweep, child),
    }
}

/// The first children that are pieces, in their order.
fn pieces<H: Host>(host: &H, sweep: Sweep, children: &[Child]) -> SubShapes
    ensures { result.items ≡ pieces (H.answers host.now) sweep children.now }
{
    let mut pieces = ShortList::new();
    for child in children {
        if !pieces.is_full() && is_piece(host, child.shape) {
            pieces.push(piece(host, sweep, *child));
        }
    }
    pieces
}

/// The pieces of a Compound, if there are any.
fn compound<H: Host>(host: &H, shape: u32, sweep: Sweep) -> Option<FastShapeKind>
    ensures { result ≡ compound_of (pieces (H.answers host.now) sweep ((H.answers host.now).children shape)) }
{
    let pieces = pieces(host, sweep, host.children(shape));
    if pieces.is_empty() {
        None
    } else {
        Some(FastShapeKind::Compound(pieces))
    }
}

/// How a shape is swept along a sweep; none of what is never swept.
fn sweep_kind<H: Host>(host: &H, shape: u32, sweep: Sweep) -> Option<FastShapeKind>
    ensures { result ≡ kind_of (H.answers host.now) shape sweep ((H.answers host.now).kind shape) }
{
    match host.kind(shape)? {
        ShapeKind::Proxy => Some(FastShapeKind::Convex(FastSubShape { shape, sweep })),
        ShapeKind::Compound => compound(host, shape, sweep),
        ShapeKind::Other => Some(FastShapeKind::Nonlinear),
        _ => None,
    }
}

impl FastShape {
    /// A shape on its way with its velocities; none where it is never swept.
    // the velocities apart: with start and centre of the sweep they make the `Motion`, here and nowhere else
    pub fn new<H: Host>(
        host: &H,
        shape: u32,
        sweep: Sweep,
        linvel: Vector,
        angvel: Vector,
    ) -> Option<FastShape>
        ensures { result ≡ fast_shape (H.answers host.now) shape sweep linvel angvel }
    {
        let kind = sweep_kind(host, shape, sweep)?;
        Some(FastShape {
            shape,
            kind,
            motion: Motion {
                start: sweep.start,
                centre: sweep.centre,
                linear: linvel,
                angular: angvel,
            },
        })
    }
}
