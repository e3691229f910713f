//! What a sheet holds, by place and by number.

ghost use Rattle.field.specs.Refusals.{by_number};
ghost use Rattle.sheet.specs.Content.{blank, on, place, place_for};
ghost use Rattle.sheet.specs.Sheets.{content_of};
ghost use Rattle.std.specs.Prelude.{◌≡◌, length, IfOk, if◌then◌else◌};

use crate::rows::Rows;
use crate::sheet::Holding;
use crate::table::Table;
use field::Refusal;
use std::alloc::{AllocError, Global};

/// The pace of a blank sheet, in seconds.
const USUAL_PACE: u16 = 480;

impl Holding {
    /// No rows, and memory for all that come.
    pub(super) fn blank(heap: Global) -> Result<Holding, AllocError>
        ensures { IfOk result (λ h. content_of h ≡ blank) }
    {
        Ok(Holding {
            table: Table::empty(heap)?,
            pace: USUAL_PACE,
        })
    }

    /// How many groups there are.
    pub(super) fn count(&self) -> usize
        ensures { result ≡ length (content_of self.now).rows }
    {
        self.table.rows().len()
    }

    /// The rows as a field.
    pub(super) fn rows(&self) -> Rows<'_>
        ensures { result.rows.now ≡ (content_of self.now).rows }
    {
        Rows::new(self.table.rows())
    }

    /// The place of the group with a number, or else the place for it.
    pub(super) fn search(&self, number: u16) -> Result<usize, usize>
        ensures { let rows = (content_of self.now).rows in result ≡ (if on number rows then Ok (place number rows) else Err (place_for number rows)) }
    {
        self.table
            .rows()
            .binary_search_by_key(&number, |row| row.number)
    }

    /// The place of the group with a number.
    pub(super) fn find(&self, number: u16) -> Result<usize, Refusal>
        ensures { let rows = (content_of self.now).rows in by_number result ≡ (if on number rows then Ok (place number rows) else Err 8) }
    {
        self.search(number).map_err(|_| Refusal::Unknown)
    }

    /// Makes it hold what another holds. The rows are taken out first and put in last: no rows have an order of play
    /// at every pace.
    pub(super) fn copy_from(&mut self, other: &Holding)
        ensures { content_of self.new ≡ content_of other.now }
    {
        self.table.clear();
        self.pace = other.pace;
        self.table.fill(&other.table);
    }
}
