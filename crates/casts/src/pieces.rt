//! Which shapes are swept, in which pieces, and which cast a target takes. A port of parts of `sweeps.rs` of rapier3d 0.35.3,
//! changed: see NOTICE.
ghost use Rattle.std.specs.Prelude.{◌≡◌};
ghost use Rattle.casts.specs.Pieces.{is_proxy, has_proxy, swept_by, target_kind_of, child_sweep, cast_at};

use geometry::ShapeKind;
use hosts::{CastQuery, Child, Host, Sweep};
use outcomes::{CastOutcome, PairKind};

/// How a target takes the casts of a fast shape's pieces.
#[derive(Clone, Copy, Debug, PartialEq, Eq)]
pub enum TargetKind {
    /// A proxy cast for each piece.
    Proxy,
    /// A composite cast for each piece.
    Composite,
    /// One turning cast of the whole fast shape.
    Turning,
}

/// Whether a shape is one piece.
pub fn is_piece<H: Host>(host: &H, shape: u32) -> bool
    ensures { result ≡ is_proxy ((H.answers host.now).kind shape) }
{
    host.kind(shape) == Some(ShapeKind::Proxy)
}

/// Whether some child is a piece.
fn has_piece<H: Host>(host: &H, children: &[Child]) -> bool
    ensures { result ≡ has_proxy (H.answers host.now) children.now }
{
    children.iter().any(|child| is_piece(host, child.shape))
}

/// Whether a shape of this kind is swept as the moving one. Meshes and their like never are, nor is a Compound without a piece.
pub fn is_swept<H: Host>(host: &H, shape: u32, kind: ShapeKind) -> bool
    ensures { result ≡ swept_by (H.answers host.now) shape kind }
{
    match kind {
        ShapeKind::Compound => has_piece(host, host.children(shape)),
        _ => !kind.is_never_swept(),
    }
}

/// How a target of this kind takes casts.
pub fn target_kind(kind: ShapeKind) -> TargetKind
    ensures { result ≡ target_kind_of kind }
{
    match kind {
        ShapeKind::Proxy => TargetKind::Proxy,
        _ if kind.is_composite() => TargetKind::Composite,
        _ => TargetKind::Turning,
    }
}

/// The way of a child of a Compound that moves along the sweep.
pub fn child_sweep<H: Host>(host: &H, sweep: Sweep, child: Child) -> Sweep
    ensures { result ≡ child_sweep (H.answers host.now) sweep child }
{
    Sweep {
        start: host.product(sweep.start, child.pose),
        end: host.product(sweep.end, child.pose),
        centre: host.inverse_point(child.pose, sweep.centre),
    }
}

/// Casts one piece of the fast shape; nothing where a composite cast answers nothing or the target takes no casts of pieces.
pub fn cast_sub_shape<H: Host>(
    host: &H,
    query: CastQuery,
    target: TargetKind,
    pair: PairKind,
    cap: f32,
) -> Option<CastOutcome>
    ensures { result ≡ cast_at (H.answers host.now) query target pair cap }
{
    match target {
        TargetKind::Proxy => Some(host.proxy_cast(query, cap)),
        TargetKind::Composite => host.composite_cast(query, pair, cap),
        TargetKind::Turning => None,
    }
}
