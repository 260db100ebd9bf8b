//! The lines of a text.
ghost use Rattle.std.specs.Prelude.{◌≡◌};
ghost use Rattle.std.specs.Iterator.{YieldsFirstRef, item_count};
ghost use Rattle.desk.specs.Lines.{lines_of};
ghost use Rattle.desk.specs.LinesLeft.{lines_left};

use texts::{Until, front, past, skip};

/// What ends a line.
const LINE_FEED: Until = Until::Mark(b'\n');

/// The lines of a text that are still to come, without their ends.
// not `split`: a text that ends in a line feed has no line after it
#[derive(Drop)]
pub struct Lines<'a> {
    text: &'a [u8],
}

impl<'a> Lines<'a> {
    /// All lines of a text.
    pub fn of(text: &'a [u8]) -> Lines<'a>
        ensures { lines_left result ≡ lines_of text.now }
    {
        Lines { text }
    }
}

impl<'a> Iterator for Lines<'a> {
    type Item = &'a [u8];

    ghost next_gives = { YieldsFirstRef lines_left };

    ghost remaining = { item_count lines_left };

    fn next(&mut self) -> Option<&'a [u8]> {
        if self.text.is_empty() {
            return None;
        }
        let line = front(self.text, LINE_FEED);
        self.text = skip(past(self.text, LINE_FEED), 1);
        Some(line)
    }
}
