//! Where a text is cut.
ghost use Rattle.std.specs.Prelude.{◌≡◌, ◌≤◌, length, drop};
ghost use Rattle.std.specs.List.{position_or_len};
ghost use Rattle.texts.specs.Cuts.{is_blank, stops_at, front_of, past_of};

/// Up to where a text is read.
// an enum, and no closure: a function that calls what it is handed asks its caller to show that it may
#[derive(Clone, Copy, PartialEq, Eq, Debug)]
pub enum Until {
    /// The first byte that is this one.
    Mark(u8),
    /// The first blank: a space, a tab or a carriage return.
    Blank,
    /// The first byte that is no blank.
    Nonblank,
}

fn is_blank(b: u8) -> bool
    ensures { result ≡ is_blank b }
{
    matches!(b, b' ' | b'\t' | b'\r')
}

impl Until {
    fn stops(self, b: u8) -> bool
        ensures { result ≡ stops_at self b }
    {
        match self {
            Until::Mark(mark) => b == mark,
            Until::Blank => is_blank(b),
            Until::Nonblank => !is_blank(b),
        }
    }
}

/// How many bytes stand before the cut.
fn reach(text: &[u8], until: Until) -> usize
    ensures value { result ≡ position_or_len (stops_at until) text.now }
    ensures bound { result ≤ length text.now }
{
    text.iter()
        .position(|b| until.stops(*b))
        .unwrap_or(text.len())
}

/// What follows the first `count` bytes.
pub fn skip(text: &[u8], count: usize) -> &[u8]
    ensures { result.now ≡ drop count text.now }
{
    text.get(count..).unwrap_or_default()
}

/// What stands before the cut.
pub fn front(text: &[u8], until: Until) -> &[u8]
    ensures { result.now ≡ front_of (stops_at until) text.now }
{
    &text[..reach(text, until)]
}

/// The text from the cut on; empty where there is none.
pub fn past(text: &[u8], until: Until) -> &[u8]
    ensures { result.now ≡ past_of (stops_at until) text.now }
{
    &text[reach(text, until)..]
}

/// A text in two: what stands before the cut, and the text from the cut on.
pub(crate) fn cut(text: &[u8], until: Until) -> (&[u8], &[u8])
    ensures front { result.0.now ≡ front_of (stops_at until) text.now }
    ensures past { result.1.now ≡ past_of (stops_at until) text.now }
{
    text.split_at(reach(text, until))
}
