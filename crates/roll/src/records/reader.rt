//! Reading a roll: its beginning, and then record by record.

ghost use Rattle.std.specs.Prelude.{◌≡◌, ◌-◌, ◌<◌, ◌≤◌, true, length, drop, IfSome, is_ok};
ghost use Rattle.std.specs.Iterator.{at_most};
ghost use Rattle.std.specs.Result.{result_transpose};
ghost use Rattle.field.specs.Refusals.{first_no};
ghost use Rattle.roll.specs.Faults.{by_flaw};
ghost use Rattle.roll.specs.Meaning.{ahead, heard, left, read_from, marked, meaning, questions, untold, version_1, Tells};
ghost use Rattle.sheet.specs.Questions.{answered};

use crate::fault::{Fault, Flaw};
use crate::reading::read;
use crate::records::{Entry, Position, Records, Stage};
use std::mem;

/// The most bytes that a roll has.
const LONGEST_ROLL: usize = 4_096;

/// The position of the first record, after mark and version.
const FIRST: Position = Position { turn: 1, place: 5 };

/// The version of rolls that the box reads.
const VERSION: u16 = 1;

/// Whether a roll begins with the mark TEE.
fn has_mark(roll: &[u8]) -> bool
    ensures { result ≡ marked roll.now }
{
    roll.starts_with(b"TEE")
}

/// Whether the version follows the mark, and is 1.
fn has_version(roll: &[u8]) -> bool
    ensures { result ≡ version_1 roll.now }
{
    match roll {
        [_, _, _, high, low, ..] => u16::from_be_bytes([*high, *low]) == VERSION,
        _ => false,
    }
}

/// Whether a roll begins as it should.
fn begins(roll: &[u8]) -> Result<(), Flaw>
    ensures { by_flaw result ≡ answered (first_no (questions roll.now)) tt }
{
    if roll.len() > LONGEST_ROLL {
        return Err(Flaw::TooLong);
    }
    if !has_mark(roll) {
        return Err(Flaw::NoMark);
    }
    if !has_version(roll) {
        return Err(Flaw::WrongVersion);
    }
    Ok(())
}

impl<'a> Records<'a> {
    /// All records of a roll.
    pub fn of(roll: &'a [u8]) -> Records<'a>
        ensures { left result ≡ meaning roll.now }
    {
        Records {
            roll,
            stage: Stage::Heading,
        }
    }

    /// The next record, if there is one, and before the first one mark and version.
    fn read_on(&mut self) -> Result<Option<Entry<'a>>, Fault>
        ensures told { Tells self.old (result_transpose result) self.new }
        ensures fewer { IfSome (result_transpose result) (λ _. untold self.new < untold self.old) }
    {
        match mem::replace(&mut self.stage, Stage::Stopped) {
            Stage::Heading => {
                begins(self.roll).map_err(Fault::of_roll)?;
                self.read_at(FIRST)
            }
            Stage::Record(at) => self.read_at(at),
            Stage::Stopped => Ok(None),
        }
    }

    /// The record at a position, if the roll does not end there.
    fn read_at(&mut self, at: Position) -> Result<Option<Entry<'a>>, Fault>
        requires stopped { self.old.stage ≡ Stage.Stopped }
        requires inside { at.place ≤ length self.old.roll.now }
        requires few { at.turn ≤ at.place }
        ensures told { read_from at.turn at.place (drop at.place self.old.roll.now) ≡ heard (result_transpose result) (left self.new) }
        ensures shorter { IfSome (result_transpose result) (λ e. is_ok e ≡ true → ahead self.new < length self.old.roll.now - at.place) }
        ensures fewer { IfSome (result_transpose result) (λ _. untold self.new < length self.old.roll.now - at.place) }
    {
        if at.place == self.roll.len() {
            return Ok(None);
        }
        let record = read(&self.roll[at.place..]).map_err(|flaw| Fault {
            cause: flaw.into(),
            at,
        })?;
        self.stage = Stage::Record(Position {
            turn: at.turn + 1,
            place: at.place + 2 + usize::from(self.roll[at.place + 1]),
        });
        Ok(Some(Entry { record, at }))
    }
}

impl<'a> Iterator for Records<'a> {
    type Item = Result<Entry<'a>, Fault>;

    ghost next_gives = { Tells };

    ghost remaining = { λ r. at_most (untold r) };

    /// The next record, or what is wrong with it or with the roll; none at the roll's end and after a fault.
    // Inlined, since else each entry is moved through a result on the way out.
    #[inline(always)]
    fn next(&mut self) -> Option<Result<Entry<'a>, Fault>> {
        self.read_on().transpose()
    }
}
