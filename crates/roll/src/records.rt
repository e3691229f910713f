//! The records of a roll, one after another.

ghost use Rattle.roll.specs.Stages.{place_of, turn_of};
ghost use Rattle.std.specs.Prelude.{◌≤◌, length};

use crate::record::Record;

mod reader;

/// Where a record is.
#[derive(Clone, Copy, Debug, PartialEq, Eq)]
pub struct Position {
    /// Its turn, counted from 1.
    pub turn: usize,
    /// The place of its kind byte, counted from 0.
    pub place: usize,
}

/// A record in its place.
#[derive(Clone, Copy, Debug, PartialEq, Eq)]
pub struct Entry<'a> {
    pub record: Record<'a>,
    pub at: Position,
}

/// How far a roll is read.
#[derive(Clone, Copy)]
enum Stage {
    /// Mark and version are next.
    Heading,
    /// A record is next, or the roll ends here.
    Record(Position),
    /// Nothing is next, at the roll's end or after a fault.
    Stopped,
}

/// The records of a roll that are still to be read.
#[derive(Drop)]
pub struct Records<'a> {
    roll: &'a [u8],
    stage: Stage,
    ghost inside: { place_of stage ≤ length roll.now },
    ghost few: { turn_of stage ≤ place_of stage },
}
