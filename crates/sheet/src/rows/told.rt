//! What the rows tell, place by place.

ghost use Rattle.sheet.specs.Bounded.{rows_told};
ghost use Rattle.sheet.specs.Sound.{sound};
ghost use Rattle.sheet.specs.Standings.{counts, nobody};
ghost use Rattle.std.specs.List.{list_all};
ghost use Rattle.std.specs.Prelude.{◌≡◌, true, map, slice_index_or};

use crate::row::Row;
use crate::rows::Rows;
use field::{Field, Numbered, Window};

/// The row at a place, and outside one with no number and the window 0..0.
pub(crate) fn row_at(rows: &[Row], place: usize) -> Row
    ensures { result ≡ slice_index_or rows.now place nobody }
{
    rows.get(place).copied().unwrap_or_default()
}

impl<'a> Rows<'a> {
    /// Sound rows as a field.
    pub(crate) fn new(rows: &'a [Row]) -> Rows<'a>
        requires { list_all sound rows.now ≡ true }
        ensures { result.rows.now ≡ rows.now }
    {
        Rows { rows }
    }

    /// The rows by place.
    pub fn all(&self) -> &'a [Row]
        ensures { result.now ≡ self.now.rows.now }
    {
        self.rows
    }
}

impl Field for Rows<'_> {
    ghost windows = { λ s. map counts s.rows.now };

    ghost bounded = { λ s k. rows_told s.rows.now s.kept k };

    fn count(&self) -> usize {
        self.rows.len()
    }

    fn window(&self, place: usize) -> Window {
        row_at(self.rows, place).window()
    }
}

impl Numbered for Rows<'_> {
    ghost numbers = { λ s. map (λ r. r.number) s.rows.now };

    fn number(&self, place: usize) -> u16 {
        row_at(self.rows, place).number
    }
}
