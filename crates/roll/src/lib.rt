//! Rolls: a start sheet's calls as bytes on a card.
//!
//! `Records` reads a roll record by record, `play` makes its calls on a sheet, `write` writes a sheet
//! as a roll, and `name_of` finds the name that a roll gives a group.

#![tactic(auto)]

pub mod fault;
pub mod names;
pub mod playing;
mod reading;
pub mod record;
pub mod records;
pub mod writing;

pub use fault::{Cause, Fault, Flaw, Layer};
pub use names::name_of;
pub use playing::play;
pub use record::Record;
pub use records::{Entry, Position, Records};
