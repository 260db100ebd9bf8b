//! The kinds of shapes.
ghost use Rattle.std.specs.Prelude.{◌≡◌};
ghost use Rattle.geometry.specs.Kinds.{shape_number, shape_kind_of, kind_or_unknown, is_composite, never_swept};

use crate::unknown_number::UnknownNumber;

/// What a shape is to a sweep.
#[derive(Clone, Copy, PartialEq, Eq, Debug)]
pub enum ShapeKind {
    /// A convex piece, which sweeps as a whole and takes proxy casts.
    Proxy,
    /// Up to sixteen children, none of them a Compound.
    Compound,
    TriMesh,
    Polyline,
    HeightField,
    Voxels,
    /// Whatever only a turning cast can judge.
    Other,
}

/// The number that stands for it outside: 0 to 6.
impl From<ShapeKind> for u8 {
    ghost from_gives = { λ kind number. number ≡ shape_number kind };

    // no `kind as u8`: a number may not move where a case is put between others
    fn from(kind: ShapeKind) -> u8 {
        match kind {
            ShapeKind::Proxy => 0,
            ShapeKind::Compound => 1,
            ShapeKind::TriMesh => 2,
            ShapeKind::Polyline => 3,
            ShapeKind::HeightField => 4,
            ShapeKind::Voxels => 5,
            ShapeKind::Other => 6,
        }
    }
}

/// The kind that a number stands for; none above 6.
impl TryFrom<u8> for ShapeKind {
    type Error = UnknownNumber;

    ghost try_from_gives = { λ number kind. kind ≡ kind_or_unknown shape_kind_of number };

    fn try_from(number: u8) -> Result<ShapeKind, UnknownNumber> {
        match number {
            0 => Ok(ShapeKind::Proxy),
            1 => Ok(ShapeKind::Compound),
            2 => Ok(ShapeKind::TriMesh),
            3 => Ok(ShapeKind::Polyline),
            4 => Ok(ShapeKind::HeightField),
            5 => Ok(ShapeKind::Voxels),
            6 => Ok(ShapeKind::Other),
            _ => Err(UnknownNumber(number)),
        }
    }
}

impl ShapeKind {
    /// Whether a target of this kind takes composite casts.
    // no `matches!`: each kind is named, so that a new one has to be judged
    pub fn is_composite(self) -> bool
        ensures { result ≡ is_composite self }
    {
        match self {
            ShapeKind::Compound
            | ShapeKind::TriMesh
            | ShapeKind::Polyline
            | ShapeKind::HeightField => true,
            ShapeKind::Proxy | ShapeKind::Voxels | ShapeKind::Other => false,
        }
    }

    /// Whether a shape of this kind is never swept as the moving one.
    // no `matches!`: each kind is named, so that a new one has to be judged
    pub fn is_never_swept(self) -> bool
        ensures { result ≡ never_swept self }
    {
        match self {
            ShapeKind::TriMesh | ShapeKind::Polyline | ShapeKind::HeightField | ShapeKind::Voxels =>
                true,
            ShapeKind::Proxy | ShapeKind::Compound | ShapeKind::Other => false,
        }
    }
}
