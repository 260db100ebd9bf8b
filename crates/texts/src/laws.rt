//! The laws of texts that are read, each on the contract of a function.
ghost use Rattle.texts.specs.Laws.{RoundedOnce, Numerals, Joins};

/// A decimal is the single-precision number nearest to what it says: one division of two exact values.
pub fn decimals_are_rounded_once()
    ensures { RoundedOnce }
{}

/// Texts at the limits, and the numbers that they are.
pub fn numerals_read_as_they_say()
    ensures { Numerals }
{}

/// Words and parts that are joined come apart again, and so do the numbers of a place or a pose.
pub fn joined_texts_come_apart()
    ensures { Joins }
{}
