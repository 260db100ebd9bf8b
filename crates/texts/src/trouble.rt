//! What is wrong with a line.
ghost use Rattle.std.specs.Prelude.{◌≡◌, Some};
ghost use Rattle.texts.specs.Troubles.{message_of};

use std::error::Error;
use std::fmt;

/// Why a line cannot be read.
#[derive(Clone, Copy, PartialEq, Eq, Debug)]
pub enum Trouble {
    /// The first word is no command.
    UnknownCommand,
    /// The command is known, and not read yet.
    NotThereYet,
    MissingWord,
    /// A word is left over after a complete command.
    ExtraWord,
    /// More than 16 children.
    TooManyChildren,
    NotAShape,
    NotANumber,
    /// A decimal whose digits form more than 16,777,216, or with more than 10 digits after the point.
    TooManyDigits,
    NotAPlace,
    NotAPose,
    NotAChild,
    NotAKind,
    NotAStatus,
    NotAHost,
    NotAPair,
    NotAnOverlap,
}

impl Trouble {
    /// What is wrong, in words.
    pub fn message(self) -> &'static str
        ensures { result.now ≡ message_of self }
    {
        match self {
            Trouble::UnknownCommand => "no such command",
            Trouble::NotThereYet => "this command is not there yet",
            Trouble::MissingWord => "a word is missing",
            Trouble::ExtraWord => "a word is left over",
            Trouble::TooManyChildren => "more than 16 children",
            Trouble::NotAShape => "no shape number",
            Trouble::NotANumber => "no number",
            Trouble::TooManyDigits => "a number has too many digits, write its bits as 0x........",
            Trouble::NotAPlace => "no place, it is three numbers: x,y,z",
            Trouble::NotAPose => "no pose, it is three numbers or seven: x,y,z or x,y,z,i,j,k,w",
            Trouble::NotAChild => "no child, it is a shape number at a pose: N@POSE",
            Trouble::NotAKind => "no kind of shape",
            Trouble::NotAStatus => "no status, it is hit, failed, overlapped or separated",
            Trouble::NotAHost => "no host, it is slide or recorded",
            Trouble::NotAPair => "no pair, it is solid or pseudo",
            Trouble::NotAnOverlap => "no overlap, it is yes, no or -",
        }
    }
}

impl fmt::Display for Trouble {
    ghost output = { λ t. Some (message_of t) };

    fn fmt<W: fmt::Write>(&self, f: &mut fmt::Formatter<W>) -> fmt::Result {
        f.write_str(self.message())
    }
}

impl Error for Trouble {}
