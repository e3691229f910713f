//! Tries a change: whether what the sheet would hold has an order of play. It is tried on a field, never on the sheet.

ghost use Rattle.field.specs.Refusals.{by_number};
ghost use Rattle.sheet.specs.Calls.{with_rows};
ghost use Rattle.sheet.specs.Content.{paced};
ghost use Rattle.sheet.specs.Questions.{asked_13};
ghost use Rattle.sheet.specs.Sheets.{content_of};
ghost use Rattle.sheet.specs.Sound.{sound};
ghost use Rattle.std.specs.List.{insert};
ghost use Rattle.std.specs.Prelude.{◌≡◌, ◌<◌, ◌≤◌, true, length, slice_set};

use crate::one_more::OneMore;
use crate::row::Row;
use crate::sheet::Holding;
use field::{Held, Refusal};
use reckoning::possible::possible;

impl Holding {
    /// Have the rows an order of play at another pace?
    pub(super) fn plays_at(&self, pace: u16) -> Result<(), Refusal>
        requires { paced pace ≡ true }
        ensures { by_number result ≡ asked_13 (record { rows = (content_of self.now).rows; pace = pace }) }
    {
        possible(&self.rows(), pace)
    }

    /// Have the rows one with another row at a place?
    pub(super) fn plays_with(&self, place: usize, row: Row) -> Result<(), Refusal>
        requires { sound row ≡ true }
        ensures { let c = content_of self.now in by_number result ≡ asked_13 (with_rows c (slice_set c.rows place row)) }
    {
        let (early, late) = row.counts();
        possible(&Held::new(self.rows(), place, early, late), self.pace)
    }

    /// Have the rows one with one more row at a place?
    pub(super) fn plays_also(&self, place: usize, row: Row) -> Result<(), Refusal>
        requires inside { place ≤ length (content_of self.now).rows }
        requires room { length (content_of self.now).rows < 64 }
        requires sound { sound row ≡ true }
        ensures { let c = content_of self.now in by_number result ≡ asked_13 (with_rows c (insert c.rows place row)) }
    {
        possible(&OneMore::new(self.table.rows(), place, row), self.pace)
    }
}
