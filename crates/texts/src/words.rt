//! The words of a text.
ghost use Rattle.std.specs.Prelude.{◌≡◌, [], slice_index_or};
ghost use Rattle.std.specs.Iterator.{YieldsFirstRef, item_count};
ghost use Rattle.texts.specs.Words.{words_of};
ghost use Rattle.texts.specs.WordsLeft.{words_left};

use crate::cuts::{Until, cut, past};

/// The words of a text that are still to come.
// a struct, since no function can hand out a chain
#[derive(Drop)]
pub struct Words<'a> {
    text: &'a [u8],
}

impl<'a> Words<'a> {
    /// All words of a text.
    pub fn of(text: &'a [u8]) -> Words<'a>
        ensures { words_left result ≡ words_of text.now }
    {
        Words { text }
    }
}

impl<'a> Iterator for Words<'a> {
    type Item = &'a [u8];

    ghost next_gives = { YieldsFirstRef words_left };

    ghost remaining = { item_count words_left };

    fn next(&mut self) -> Option<&'a [u8]> {
        let text = past(self.text, Until::Nonblank);
        if text.is_empty() {
            return None;
        }
        let (word, rest) = cut(text, Until::Blank);
        self.text = rest;
        Some(word)
    }
}

/// The word at a place, counted from 0; empty where there is none.
pub fn word_at(text: &[u8], place: usize) -> &[u8]
    ensures { result.now ≡ slice_index_or (words_of text.now) place [] }
{
    Words::of(text).nth(place).unwrap_or_default()
}
