//! The commands, by their words.
ghost use Rattle.std.specs.Prelude.{◌≡◌};
ghost use Rattle.texts.specs.WordsLeft.{words_left};
ghost use Rattle.texts.specs.Reals.{number_of};
ghost use Rattle.script.specs.Lines.{read_word, outcome_from, ended, hall_from, host_from, box_from, compound_from, listed_from, row_from, cast_from, line_from, command_from};
ghost use Rattle.script.specs.Taken.{Takes, Reads};

use crate::children::read_children;
use crate::choices::{host, kind, overlap, pair, time};
use crate::command::Command;
use crate::verbs::{Verb, verb_word};
use casts::Flight;
use geometry::Aabb;
use outcomes::CastOutcome;
use recorded::Row;
use texts::{Trouble, Words, number, place, pose, shape};

/// The next word, which may not be missing.
fn needed<'a>(words: &mut Words<'a>) -> Result<&'a [u8], Trouble>
    ensures { Takes words.old result words.new }
{
    words.next().ok_or(Trouble::MissingWord)
}

/// No word is left over.
fn end(mut words: Words<'_>) -> Result<(), Trouble>
    ensures { result ≡ ended (words_left words.entry) }
{
    match words.next() {
        None => Ok(()),
        Some(_) => Err(Trouble::ExtraWord),
    }
}

/// The next word as a number.
fn fraction(words: &mut Words<'_>) -> Result<f32, Trouble>
    ensures { Reads (read_word number_of) words.old result words.new }
{
    number(needed(words)?)
}

/// How a cast ended, by the word for it and the fraction that follows.
fn outcome(status: &[u8], words: &mut Words<'_>) -> Result<CastOutcome, Trouble>
    ensures { Reads (outcome_from status.now) words.old result words.new }
{
    match status {
        b"hit" => fraction(words).map(CastOutcome::Hit),
        b"failed" => fraction(words).map(CastOutcome::Failed),
        b"overlapped" => fraction(words).map(CastOutcome::Overlapped),
        b"separated" => fraction(words).map(CastOutcome::Separated),
        _ => Err(Trouble::NotAStatus),
    }
}

/// `hall NAME`
fn hall_line(mut words: Words<'_>) -> Result<Command, Trouble>
    ensures { result ≡ hall_from (words_left words.entry) }
{
    needed(&mut words)?;
    end(words)?;
    Ok(Command::Hall)
}

/// `host slide|recorded`
fn host_line(mut words: Words<'_>) -> Result<Command, Trouble>
    ensures { result ≡ host_from (words_left words.entry) }
{
    let host = host(needed(&mut words)?)?;
    end(words)?;
    Ok(Command::Host(host))
}

/// `box HX,HY,HZ`
fn box_line(mut words: Words<'_>) -> Result<Command, Trouble>
    ensures { result ≡ box_from (words_left words.entry) }
{
    let half = place(needed(&mut words)?)?;
    end(words)?;
    Ok(Command::Cuboid(half))
}

/// `compound N@POSE ...`
fn compound_line(words: Words<'_>) -> Result<Command, Trouble>
    ensures { result ≡ compound_from (words_left words.entry) }
{
    let children = read_children(words)?;
    if children.count == 0 {
        return Err(Trouble::MissingWord);
    }
    Ok(Command::Compound(children))
}

/// `listed KIND LEAST GREATEST [N@POSE ...]`
fn listed_line(mut words: Words<'_>) -> Result<Command, Trouble>
    ensures { result ≡ listed_from (words_left words.entry) }
{
    let kind = kind(needed(&mut words)?)?;
    let mins = place(needed(&mut words)?)?;
    let maxs = place(needed(&mut words)?)?;
    let children = read_children(words)?;
    Ok(Command::Listed(kind, Aabb { mins, maxs }, children))
}

/// `row FAST TARGET hit|failed|overlapped|separated FRACTION TIME|- yes|no|-`
fn row_line(mut words: Words<'_>) -> Result<Command, Trouble>
    ensures { result ≡ row_from (words_left words.entry) }
{
    let fast = shape(needed(&mut words)?)?;
    let target = shape(needed(&mut words)?)?;
    let cast = outcome(needed(&mut words)?, &mut words)?;
    let time = time(needed(&mut words)?)?;
    let overlap = overlap(needed(&mut words)?)?;
    end(words)?;
    Ok(Command::Row(Row {
        fast,
        target,
        cast,
        time,
        overlap,
    }))
}

/// `cast FAST FROM TO TARGET AT solid|pseudo`
fn cast_line(mut words: Words<'_>) -> Result<Command, Trouble>
    ensures { result ≡ cast_from (words_left words.entry) }
{
    let fast = shape(needed(&mut words)?)?;
    let from = pose(needed(&mut words)?)?;
    let to = pose(needed(&mut words)?)?;
    let target = shape(needed(&mut words)?)?;
    let at = pose(needed(&mut words)?)?;
    let pair = pair(needed(&mut words)?)?;
    end(words)?;
    Ok(Command::Cast(Flight {
        fast,
        start: from,
        end: to,
        target,
        pose: at,
        pair,
    }))
}

/// A line, by its verb and the words after it.
fn line_of(verb: Verb, words: Words<'_>) -> Result<Command, Trouble>
    ensures { result ≡ line_from verb (words_left words.entry) }
{
    match verb {
        Verb::Hall => hall_line(words),
        Verb::Host => host_line(words),
        Verb::Cuboid => box_line(words),
        Verb::Compound => compound_line(words),
        Verb::Listed => listed_line(words),
        Verb::Row => row_line(words),
        Verb::Cast => cast_line(words),
    }
}

/// A line without its comment.
pub fn command(mut words: Words<'_>) -> Result<Command, Trouble>
    ensures { result ≡ command_from (words_left words.entry) }
{
    match words.next() {
        None => Ok(Command::Blank),
        Some(word) => line_of(verb_word(word)?, words),
    }
}
