//! The first words of lines.
ghost use Rattle.std.specs.Prelude.{◌≡◌};
ghost use Rattle.script.specs.Verbs.{is_known, verb_of, verb_from};

use texts::Trouble;

/// A command that is read.
#[derive(Clone, Copy, PartialEq, Eq, Debug)]
pub enum Verb {
    Hall,
    Host,
    Cuboid,
    Compound,
    Listed,
    Row,
    Cast,
}

fn verb_of(word: &[u8]) -> Option<Verb>
    ensures { result ≡ verb_of word.now }
{
    match word {
        b"hall" => Some(Verb::Hall),
        b"host" => Some(Verb::Host),
        b"box" => Some(Verb::Cuboid),
        b"compound" => Some(Verb::Compound),
        b"listed" => Some(Verb::Listed),
        b"row" => Some(Verb::Row),
        b"cast" => Some(Verb::Cast),
        _ => None,
    }
}

/// A command that is known, and not read yet.
fn is_known(word: &[u8]) -> bool
    ensures { result ≡ is_known word.now }
{
    matches!(
        word,
        b"slots"
            | b"params"
            | b"bar"
            | b"place"
            | b"attach"
            | b"detach"
            | b"lift"
            | b"put"
            | b"aim"
            | b"advance"
            | b"solve"
            | b"first"
    )
}

/// The command that a word is, or else whether it is known.
pub fn verb_word(word: &[u8]) -> Result<Verb, Trouble>
    ensures { result ≡ verb_from word.now }
{
    match verb_of(word) {
        Some(verb) => Ok(verb),
        None if is_known(word) => Err(Trouble::NotThereYet),
        None => Err(Trouble::UnknownCommand),
    }
}
