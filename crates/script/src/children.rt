//! The children of a Compound: a shape number, `@` and a pose each.
ghost use Rattle.std.specs.Prelude.{◌≡◌};
ghost use Rattle.texts.specs.WordsLeft.{words_left};
ghost use Rattle.script.specs.Parts.{child_of, no_children, children_of};

use crate::command::Children;
use geometry::{Pose, Vector};
use hosts::Child;
use hosts::children::MOST_CHILDREN;
use texts::{Trouble, Until, Words, front, past, pose, shape};

/// What stands between a child's shape and its pose.
const AT: Until = Until::Mark(b'@');

fn child(word: &[u8]) -> Result<Child, Trouble>
    ensures { result ≡ child_of word.now }
{
    let [_, place @ ..] = past(word, AT) else {
        return Err(Trouble::NotAChild);
    };
    let shape = shape(front(word, AT))?;
    let pose = pose(place)?;
    Ok(Child { pose, shape })
}

fn none() -> Children
    ensures { result ≡ no_children }
{
    let blank = Child {
        pose: Pose::at(Vector::zero()),
        shape: 0,
    };
    Children {
        list: [blank; MOST_CHILDREN],
        count: 0,
    }
}

/// The children that the words are, 16 at most.
pub fn read_children(words: Words<'_>) -> Result<Children, Trouble>
    ensures { result ≡ children_of no_children (words_left words.entry) }
{
    let mut children = none();
    for word in words {
        if children.count >= MOST_CHILDREN as u32 {
            return Err(Trouble::TooManyChildren);
        }
        children.list[children.count as usize] = child(word)?;
        children.count += 1;
    }
    Ok(children)
}
