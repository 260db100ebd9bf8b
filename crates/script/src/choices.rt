//! Words that are one of a few. Functions, and no `TryFrom`: most of the kinds are of other crates, and one
//! form serves all.
ghost use Rattle.std.specs.Prelude.{◌≡◌};
ghost use Rattle.script.specs.Choices.{host_of, kind_of, time_of, overlap_of, pair_of};

use crate::command::HostChoice;
use geometry::ShapeKind;
use outcomes::PairKind;
use texts::{Trouble, number};

pub fn host(word: &[u8]) -> Result<HostChoice, Trouble>
    ensures { result ≡ host_of word.now }
{
    match word {
        b"slide" => Ok(HostChoice::Slide),
        b"recorded" => Ok(HostChoice::Recorded),
        _ => Err(Trouble::NotAHost),
    }
}

pub fn kind(word: &[u8]) -> Result<ShapeKind, Trouble>
    ensures { result ≡ kind_of word.now }
{
    match word {
        b"proxy" => Ok(ShapeKind::Proxy),
        b"compound" => Ok(ShapeKind::Compound),
        b"trimesh" => Ok(ShapeKind::TriMesh),
        b"polyline" => Ok(ShapeKind::Polyline),
        b"heightfield" => Ok(ShapeKind::HeightField),
        b"voxels" => Ok(ShapeKind::Voxels),
        b"other" => Ok(ShapeKind::Other),
        _ => Err(Trouble::NotAKind),
    }
}

/// A turning time, or `-` for none.
pub fn time(word: &[u8]) -> Result<Option<f32>, Trouble>
    ensures { result ≡ time_of word.now }
{
    match word {
        b"-" => Ok(None),
        _ => number(word).map(Some),
    }
}

/// Whether shapes overlap, or `-` where that is not listed.
pub fn overlap(word: &[u8]) -> Result<Option<bool>, Trouble>
    ensures { result ≡ overlap_of word.now }
{
    match word {
        b"yes" => Ok(Some(true)),
        b"no" => Ok(Some(false)),
        b"-" => Ok(None),
        _ => Err(Trouble::NotAnOverlap),
    }
}

pub fn pair(word: &[u8]) -> Result<PairKind, Trouble>
    ensures { result ≡ pair_of word.now }
{
    match word {
        b"solid" => Ok(PairKind::Solid),
        b"pseudo" => Ok(PairKind::Pseudo),
        _ => Err(Trouble::NotAPair),
    }
}
