//! Places and poses: numbers joined by commas.
ghost use Rattle.std.specs.Prelude.{◌≡◌, [], ◌∷◌, ◌++◌, take};
ghost use Rattle.texts.specs.Cuts.{parts_of};
ghost use Rattle.texts.specs.Places.{kept_of, place_of, pose_of};

use crate::reals::number;
use crate::trouble::Trouble;
use arrayvec::ArrayVec;
use geometry::{Pose, Rotation, Vector};

/// The first numbers of a word: seven, and one that says that there are more.
type Numbers = ArrayVec<f32, 8>;

/// One more number, where there is room for it.
fn keep(numbers: &mut Numbers, number: f32)
    ensures { numbers.new.items ≡ take 8 (numbers.old.items ++ number ∷ []) }
{
    if !numbers.is_full() {
        numbers.push(number);
    }
}

/// The numbers of a word, or the trouble of the first part that is none. Those past the eighth go: more than seven are no pose.
fn numbers(word: &[u8]) -> Result<Numbers, Trouble>
    ensures { result ≡ kept_of (parts_of 44 word.now) }
{
    let mut numbers = ArrayVec::new();
    for part in word.split(|b| *b == b',') {
        let next = number(part)?;
        keep(&mut numbers, next);
    }
    Ok(numbers)
}

/// Three numbers.
pub fn place(word: &[u8]) -> Result<Vector, Trouble>
    ensures { result ≡ place_of word.now }
{
    let numbers = numbers(word)?;
    match *numbers.as_slice() {
        [x, y, z] => Ok(Vector { x, y, z }),
        _ => Err(Trouble::NotAPlace),
    }
}

/// Three numbers, with no turn, or seven.
pub fn pose(word: &[u8]) -> Result<Pose, Trouble>
    ensures { result ≡ pose_of word.now }
{
    let numbers = numbers(word)?;
    match *numbers.as_slice() {
        [x, y, z] => Ok(Pose::at(Vector { x, y, z })),
        [x, y, z, i, j, k, w] => Ok(Pose {
            translation: Vector { x, y, z },
            rotation: Rotation { i, j, k, w },
        }),
        _ => Err(Trouble::NotAPose),
    }
}
