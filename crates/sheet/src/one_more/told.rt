//! What the rows and the one more tell, place by place.

ghost use Rattle.std.specs.Prelude.{◌≡◌, ◌<◌, ◌≤◌, true, map, length, slice_index_or};
ghost use Rattle.sheet.specs.Bounded.{rows_told};
ghost use Rattle.sheet.specs.Sound.{sound};
ghost use Rattle.sheet.specs.Standings.{counts, nobody};
ghost use Rattle.std.specs.List.{insert, list_all};

use crate::one_more::OneMore;
use crate::row::Row;
use crate::rows::row_at;
use field::{Field, Window};

impl OneMore<'_> {
    /// Sound rows with a sound row put in at a place.
    pub fn new(rows: &[Row], place: usize, row: Row) -> OneMore<'_>
        requires inside { place ≤ length rows.now }
        requires room { length rows.now < 64 }
        requires kept { list_all sound (insert rows.now place row) ≡ true }
        ensures { (result.rows.now ≡ rows.now) × (result.place ≡ place) × (result.row ≡ row) }
    {
        OneMore { rows, place, row }
    }

    /// The row at a place, the one more among them.
    fn row_at(&self, place: usize) -> Row
        ensures { result ≡ slice_index_or (insert self.now.rows.now self.now.place self.now.row) place nobody }
    {
        if place < self.place {
            row_at(self.rows, place)
        } else if place == self.place {
            self.row
        } else {
            row_at(self.rows, place - 1)
        }
    }
}

impl Field for OneMore<'_> {
    ghost windows = { λ s. map counts (insert s.rows.now s.place s.row) };

    ghost bounded = { λ s k. rows_told (insert s.rows.now s.place s.row) s.kept k };

    fn count(&self) -> usize {
        self.rows.len() + 1
    }

    fn window(&self, place: usize) -> Window {
        self.row_at(place).window()
    }
}
