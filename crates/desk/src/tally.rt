//! What a run came to.
ghost use Rattle.std.specs.Prelude.{◌≡◌};
ghost use Rattle.desk.specs.Tallies.{empty_tally, counted};

use crate::answers::Answer;

/// How many halls began, how many casts were granted and refused, and how many lines could not be read.
#[derive(Clone, Copy, Default, Debug, PartialEq, Eq)]
pub struct Tally {
    pub halls: u64,
    pub granted: u64,
    pub refused: u64,
    pub unread: u64,
}

impl Tally {
    /// Nothing counted yet.
    pub fn new() -> Tally
        ensures { result ≡ empty_tally }
    {
        Tally::default()
    }

    /// Counts an answer; the counts stop at their last number.
    pub fn count(&mut self, answer: &Answer)
        ensures { self.new ≡ counted self.old answer.now }
    {
        // Tried: one `&mut` to the count that grows. Its proof knows nothing of the other counts after a `match` that picks it.
        match answer {
            Answer::Silent => {}
            Answer::Hall => self.halls = self.halls.saturating_add(1),
            Answer::Unread(_) => self.unread = self.unread.saturating_add(1),
            Answer::Cast(_, Ok(_)) => self.granted = self.granted.saturating_add(1),
            Answer::Cast(_, Err(_)) => self.refused = self.refused.saturating_add(1),
        }
    }
}
