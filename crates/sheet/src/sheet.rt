//! The start sheet.

ghost use Rattle.sheet.specs.Kept.{Kept};

use crate::table::Table;

mod asking;
mod calls;
mod lists;
mod performing;
mod places;
mod reading;
mod trial;
mod trying;

pub use trial::{Returned, Slip};

/// What a sheet holds: up to 64 rows in ascending number, and the pace in seconds that any two starts are apart. No
/// holding can exist that lacks an order of play of its rows, those already away too.
#[derive(Drop)]
struct Holding {
    table: Table,
    pace: u16,
    ghost keeps: { Kept (record { rows = table.rows.items; pace = pace }) },
}

/// A start sheet: its number, and what it holds. While a trial is open `saved` is what it held at open; that memory is
/// reserved at the making, so that open cannot fail.
#[derive(Drop)]
pub struct Sheet {
    number: u16,
    holding: Holding,
    // Not an `Option`, since the memory of `saved` stays reserved between trials, nor two cases that hold the same.
    trial: bool,
    saved: Holding,
}
