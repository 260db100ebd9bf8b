//! The answer to each command.
ghost use Rattle.std.specs.Prelude.{◌≡◌, IfOk, OnErr};
ghost use Rattle.desk.specs.Answers.{cast_on, obeyed, answered};
ghost use Rattle.script.specs.Lines.{command_of};

use crate::lists::Desk;
use casts::{CastRefusal, Flight, Report, cast_flight};
use outcomes::PairKind;
use recorded::Recorded;
use script::{Command, HostChoice, Trouble, read};
use slide::Slide;
use std::alloc::AllocError;

/// What a line of a hall script is answered.
#[derive(Clone, Copy)]
pub enum Answer {
    /// Nothing to say: the line listed something, or was empty.
    Silent,
    /// A hall begins.
    Hall,
    /// The line could not be read.
    Unread(Trouble),
    /// A cast, or why it was refused.
    Cast(PairKind, Result<Report, CastRefusal>),
}

impl Desk {
    /// Casts a flight on the host that the hall has.
    pub fn cast(&self, flight: Flight) -> Result<Report, CastRefusal>
        ensures { result ≡ cast_on self.now flight }
    {
        // a match and no `dyn`: two hosts of two types
        match self.host {
            HostChoice::Slide => cast_flight(
                &Slide {
                    shapes: self.shapes.as_slice(),
                    children: self.children.as_slice(),
                },
                flight,
            ),
            HostChoice::Recorded => cast_flight(
                &Recorded {
                    shapes: self.listed.as_slice(),
                    children: self.children.as_slice(),
                    rows: self.rows.as_slice(),
                },
                flight,
            ),
        }
    }

    /// Does what a command says. Want of memory leaves the desk as it was.
    pub fn obey(&mut self, command: Command) -> Result<Answer, AllocError>
        ensures ok { IfOk result (λ answer. (self.new, answer) ≡ obeyed self.old command) }
        ensures err { OnErr result (self.new ≡ self.old) }
    {
        match command {
            Command::Blank => {}
            Command::Hall => {
                self.clear();
                return Ok(Answer::Hall);
            }
            Command::Host(host) => self.choose(host),
            Command::Cuboid(half) => self.list_box(half)?,
            Command::Compound(children) => self.list_compound(&children)?,
            Command::Listed(kind, aabb, children) => self.list_shape(kind, aabb, &children)?,
            Command::Row(row) => self.list_row(row)?,
            Command::Cast(flight) => return Ok(Answer::Cast(flight.pair, self.cast(flight))),
        }
        Ok(Answer::Silent)
    }

    /// Reads a line of a hall script and does what it says. A line that cannot be read changes nothing.
    pub fn answer(&mut self, line: &[u8]) -> Result<Answer, AllocError>
        ensures ok { IfOk result (λ answer. (self.new, answer) ≡ answered self.old (command_of line.now)) }
        ensures err { OnErr result (self.new ≡ self.old) }
    {
        match read(line) {
            Ok(command) => self.obey(command),
            Err(trouble) => Ok(Answer::Unread(trouble)),
        }
    }
}
