//! The layer that puts one more row in at its place.

ghost use Rattle.std.specs.Prelude.{◌≡◌, ◌<◌, ◌≤◌, true, length};
ghost use Rattle.sheet.specs.Sound.{sound};
ghost use Rattle.std.specs.List.{insert, list_all};

use crate::row::Row;

mod told;

/// Rows as a field, with one more among them.
#[derive(Drop)]
pub struct OneMore<'a> {
    rows: &'a [Row],
    place: usize,
    row: Row,
    ghost inside: { place ≤ length rows.now },
    ghost room: { length rows.now < 64 },
    ghost kept: { list_all sound (insert rows.now place row) ≡ true },
}
