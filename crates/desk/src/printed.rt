//! How answers and counts are written, for people and for programs.
use crate::answers::Answer;
use crate::tally::Tally;
use casts::{Casts, Report};
use geometry::{Pose, Rotation, Vector};
use outcomes::CastOutcome;
use std::fmt;
use std::num::f32_to_bits_with_nan;

/// A number by its bits, for programs, and in decimals, for people.
#[derive(Clone, Copy)]
struct Number(f32);

/// A pose by the bits of its seven numbers, and its place in decimals.
#[derive(Clone, Copy)]
struct Place(Pose);

/// What a cast ended with, as a word.
#[derive(Clone, Copy)]
struct Status(CastOutcome);

impl fmt::Display for Number {
    fn fmt<W: fmt::Write>(&self, f: &mut fmt::Formatter<W>) -> fmt::Result {
        let number = self.0;
        write!(f, "{:08x} ({number:?})", f32_to_bits_with_nan(number))
    }
}

impl fmt::Display for Place {
    fn fmt<W: fmt::Write>(&self, f: &mut fmt::Formatter<W>) -> fmt::Result {
        let Vector { x, y, z } = self.0.translation;
        let Rotation { i, j, k, w } = self.0.rotation;
        for number in [x, y, z, i, j, k, w] {
            write!(f, "{:08x} ", f32_to_bits_with_nan(number))?;
        }
        write!(f, "({x:?},{y:?},{z:?})")
    }
}

impl fmt::Display for Status {
    fn fmt<W: fmt::Write>(&self, f: &mut fmt::Formatter<W>) -> fmt::Result {
        match self.0 {
            CastOutcome::Hit(_) => write!(f, "hit"),
            CastOutcome::Failed(_) => write!(f, "failed"),
            CastOutcome::Overlapped(_) => write!(f, "overlapped"),
            CastOutcome::Separated(_) => write!(f, "separated"),
        }
    }
}

fn write_piece<W: fmt::Write>(
    f: &mut fmt::Formatter<W>,
    place: usize,
    outcome: Option<CastOutcome>,
) -> fmt::Result {
    match outcome {
        Some(outcome) => {
            let status = Status(outcome);
            let fraction = Number(outcome.fraction());
            writeln!(f, "  piece {place} {status} {fraction}")
        }
        None => writeln!(f, "  piece {place} nothing"),
    }
}

fn write_casts<W: fmt::Write>(f: &mut fmt::Formatter<W>, casts: &Casts) -> fmt::Result {
    match casts {
        Casts::NeverSwept => writeln!(f, "  never swept"),
        Casts::Turning(Ok(Some(time))) => writeln!(f, "  whole time {}", Number(*time)),
        Casts::Turning(Ok(None)) => writeln!(f, "  whole nothing"),
        Casts::Turning(Err(unsupported)) => writeln!(f, "  whole {unsupported}"),
        Casts::Pieces(outcomes) => {
            for (place, outcome) in outcomes.as_slice().iter().enumerate() {
                write_piece(f, place, *outcome)?;
            }
            Ok(())
        }
    }
}

fn write_report<W: fmt::Write>(f: &mut fmt::Formatter<W>, report: &Report) -> fmt::Result {
    write_casts(f, &report.casts)?;
    match report.impact {
        Some(impact) => writeln!(f, "  impact {}", Number(impact))?,
        None => writeln!(f, "  impact none")?,
    }
    write!(f, "  stands {}", Place(report.stands))
}

impl fmt::Display for Answer {
    fn fmt<W: fmt::Write>(&self, f: &mut fmt::Formatter<W>) -> fmt::Result {
        match self {
            Answer::Silent => Ok(()),
            Answer::Hall => write!(f, "hall"),
            Answer::Unread(trouble) => write!(f, "{trouble}"),
            Answer::Cast(pair, Ok(report)) => {
                writeln!(f, "cast {pair}")?;
                write_report(f, report)
            }
            Answer::Cast(_, Err(refusal)) => {
                write!(f, "cast refused {}: {refusal}", refusal.number())
            }
        }
    }
}

impl fmt::Display for Tally {
    fn fmt<W: fmt::Write>(&self, f: &mut fmt::Formatter<W>) -> fmt::Result {
        let Tally {
            halls,
            granted,
            refused,
            unread,
        } = self;
        write!(
            f,
            "halls {halls}, granted {granted}, refused {refused}, lines not read {unread}"
        )
    }
}
