//! The laws of lines that are read, each on the contract of a function.
ghost use Rattle.script.specs.Laws.{Ignored, Gathered, Sayings};

/// What stands after a comment sign does not matter, nor do blanks before a line or after it.
pub fn comments_and_blanks_change_nothing()
    ensures { Ignored }
{}

/// The children of a Compound are its words, in their order, 16 at most.
pub fn children_are_kept_in_order()
    ensures { Gathered }
{}

/// Lines, and what they say.
pub fn lines_say_what_they_say()
    ensures { Sayings }
{}
