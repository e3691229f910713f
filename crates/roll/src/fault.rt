//! What stops a roll.

ghost use Rattle.roll.specs.Faults.{fault_line, flawed, flaw_layer, flaw_number, layer_word, named};
ghost use Rattle.roll.specs.declared.fault.Cause.TheVariants.{Flawed, Refused};
ghost use Rattle.std.specs.Prelude.{◌≡◌, Some};

use crate::records::Position;
use field::Refusal;
use std::error::Error;
use std::fmt;

/// What is wrong with a roll's bytes: each case is the question that was answered no, and its number.
#[derive(Clone, Copy, Debug, PartialEq, Eq)]
pub enum Flaw {
    /// Is the roll at most 4,096 bytes?
    TooLong = 21,
    /// Does it begin with the mark?
    NoMark = 22,
    /// Is the version present and 1?
    WrongVersion = 23,
    /// Is the record whole?
    Torn = 24,
    /// Is its kind known?
    UnknownKind = 25,
    /// Is its length one that the kind has?
    WrongLength = 26,
    /// Is each byte of its name from 20 to 7E, hexadecimal?
    UnprintableName = 27,
}

/// Where a fault lies: in the roll as a whole, in a record, or in what the sheet says to its call.
#[derive(Clone, Copy, Debug, PartialEq, Eq)]
pub enum Layer {
    Roll,
    Record,
    Sheet,
}

/// Why a roll stops.
#[derive(Clone, Copy, Debug, PartialEq, Eq)]
pub enum Cause {
    /// Its bytes are wrong.
    Flawed(Flaw),
    /// The sheet refuses the call.
    Refused(Refusal),
}

/// Where and why a roll stops.
#[derive(Clone, Copy, Debug, PartialEq, Eq)]
pub struct Fault {
    pub cause: Cause,
    /// The record at which it stops; turn and place 0 where the roll as a whole is wrong.
    pub at: Position,
}

impl Flaw {
    /// The number of the question that was answered no.
    // Not `From`: the number stands at each case, and `as` reads it.
    pub fn number(self) -> u8
        ensures { result ≡ flaw_number self }
    {
        self as u8
    }

    /// Questions 21 to 24 are about the roll, 25 to 27 about a record.
    pub fn layer(self) -> Layer
        ensures { result ≡ flaw_layer (flaw_number self) }
    {
        match self {
            Flaw::TooLong | Flaw::NoMark | Flaw::WrongVersion | Flaw::Torn => Layer::Roll,
            Flaw::UnknownKind | Flaw::WrongLength | Flaw::UnprintableName => Layer::Record,
        }
    }
}

impl fmt::Display for Layer {
    ghost output = { λ l. Some (layer_word l) };

    fn fmt<W: fmt::Write>(&self, f: &mut fmt::Formatter<W>) -> fmt::Result {
        f.write_str(match self {
            Layer::Roll => "roll",
            Layer::Record => "record",
            Layer::Sheet => "sheet",
        })
    }
}

impl From<Flaw> for Cause {
    ghost from_gives = { λ flaw cause. cause ≡ Flawed flaw };

    fn from(flaw: Flaw) -> Cause {
        Cause::Flawed(flaw)
    }
}

impl From<Refusal> for Cause {
    ghost from_gives = { λ refusal cause. cause ≡ Refused refusal };

    fn from(refusal: Refusal) -> Cause {
        Cause::Refused(refusal)
    }
}

impl Fault {
    /// What is wrong with a roll as a whole.
    pub(crate) fn of_roll(flaw: Flaw) -> Fault
        ensures { named result ≡ flawed (flaw_number flaw) 0 0 }
    {
        Fault {
            cause: flaw.into(),
            // No `Option`: by the rules such a fault has record 0 and place 0, and they are printed.
            at: Position { turn: 0, place: 0 },
        }
    }

    /// The layer in which the fault lies.
    pub fn layer(&self) -> Layer
        ensures { result ≡ (named self.now).layer }
    {
        match self.cause {
            Cause::Flawed(flaw) => flaw.layer(),
            Cause::Refused(_) => Layer::Sheet,
        }
    }

    /// The number of the question that was answered no.
    pub fn number(&self) -> u8
        ensures { result ≡ (named self.now).number }
    {
        match self.cause {
            Cause::Flawed(flaw) => flaw.number(),
            Cause::Refused(refusal) => refusal.number(),
        }
    }
}

impl fmt::Display for Fault {
    ghost output = { λ f. Some (fault_line (named f)) };

    fn fmt<W: fmt::Write>(&self, f: &mut fmt::Formatter<W>) -> fmt::Result {
        let layer = self.layer();
        let number = self.number();
        let Position { turn, place } = self.at;
        write!(f, "FAULT {layer} {number} {turn} {place}")
    }
}

impl Error for Fault {}
