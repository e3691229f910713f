//! The table of rows inside a sheet.

ghost use Rattle.std.specs.Prelude.{◌≤◌, vec_len, vec_capacity};

use crate::row::Row;

mod places;

/// Up to 64 rows by place, in memory that is reserved once.
#[derive(Drop)]
pub struct Table {
    rows: Vec<Row>,
    ghost short: { vec_len rows ≤ 64 },
    ghost roomy: { 64 ≤ vec_capacity rows },
}
