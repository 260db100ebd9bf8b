//! One line of a hall script.
ghost use Rattle.std.specs.Prelude.{◌≡◌, [], slice_index_or};
ghost use Rattle.texts.specs.Words.{words_of, uncommented};
ghost use Rattle.script.specs.Lines.{command_of};

use crate::command::Command;
use crate::lines::command;
use texts::{Trouble, Until, Words, front, word_at};

/// What begins a comment.
const COMMENT: Until = Until::Mark(b'#');

/// A line without its comment.
fn uncommented(line: &[u8]) -> &[u8]
    ensures { result.now ≡ uncommented line.now }
{
    front(line, COMMENT)
}

/// What a line says, or the first trouble with it.
pub fn read(line: &[u8]) -> Result<Command, Trouble>
    ensures { result ≡ command_of line.now }
{
    command(Words::of(uncommented(line)))
}

/// The word at a place of a line, counted from 0; empty where there is none.
pub fn word(line: &[u8], place: usize) -> &[u8]
    ensures { result.now ≡ slice_index_or (words_of (uncommented line.now)) place [] }
{
    word_at(uncommented(line), place)
}
