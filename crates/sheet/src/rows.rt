//! The field of a sheet's rows.

ghost use Rattle.sheet.specs.Sound.{sound};
ghost use Rattle.std.specs.List.{list_all};
ghost use Rattle.std.specs.Prelude.{◌≡◌, true};

use crate::row::Row;

mod told;

pub(crate) use told::row_at;

/// Rows as a field, by the window that counts.
#[derive(Drop)]
pub struct Rows<'a> {
    rows: &'a [Row],
    ghost kept: { list_all sound rows.now ≡ true },
}
