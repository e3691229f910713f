//! A blank sheet, and what a sheet tells of itself.

ghost use Rattle.sheet.specs.Content.{Playable, blank};
ghost use Rattle.sheet.specs.Book.{start};
ghost use Rattle.sheet.specs.Law.{Lawful};
ghost use Rattle.sheet.specs.Kept.{CanExist};
ghost use Rattle.sheet.specs.Sheets.{content, holds};
ghost use Rattle.std.specs.Prelude.{◌≡◌, length, IfOk, if◌then◌else◌, Some, None, nat_le, nat_lt, slice_index_or};
ghost use Rattle.sheet.specs.Standings.{nobody};

use crate::row::Row;
use crate::rows::Rows;
use crate::sheet::{Holding, Sheet};
use std::alloc::{AllocError, Global};

impl Sheet {
    /// A sheet with no rows. It alone can fail for want of memory, which it reserves for all that comes, trials too.
    pub fn blank(heap: Global, number: u16) -> Result<Sheet, AllocError>
        ensures held { IfOk result (λ s. content s ≡ blank) }
        ensures number { IfOk result (λ s. s.number ≡ number) }
        ensures law { IfOk result (λ s. Lawful number start s) }
    {
        let holding = Holding::blank(heap)?;
        let saved = Holding::blank(heap)?;
        Ok(Sheet {
            number,
            holding,
            trial: false,
            saved,
        })
    }

    /// The number that the sheet was made with.
    pub fn number(&self) -> u16
        ensures { result ≡ self.now.number }
    {
        self.number
    }

    /// How many groups there are.
    pub fn count(&self) -> usize
        ensures { result ≡ length (content self.now).rows }
    {
        self.holding.count()
    }

    /// The row at a place, counted from 0 in ascending number.
    pub fn row(&self, place: usize) -> Option<Row>
        ensures { result ≡ (if nat_lt place (length (content self.now).rows) then Some (slice_index_or (content self.now).rows place nobody) else None) }
    {
        self.holding.table.rows().get(place).copied()
    }

    /// The pace in seconds.
    pub fn current_pace(&self) -> u16
        ensures { result ≡ (content self.now).pace }
    {
        self.holding.pace
    }

    /// Whether a trial is open.
    pub fn is_in_trial(&self) -> bool
        ensures { result ≡ nat_le 1 (holds self.now).trials }
    {
        self.trial
    }

    /// The rows as a field. They always have an order of play.
    pub fn rows(&self) -> Rows<'_>
        ensures rows { result.rows.now ≡ (content self.now).rows }
        ensures possible { Playable (content self.now) }
        ensures kept { CanExist (content self.now) }
    {
        self.holding.rows()
    }
}
