//! Taking a trial back.

ghost use Rattle.sheet.specs.Answers.{ended, said_back, slip_by_number};
ghost use Rattle.sheet.specs.Book.{no_lists};
ghost use Rattle.sheet.specs.Calls.{Back};
ghost use Rattle.sheet.specs.Law.{GoesOn};
ghost use Rattle.sheet.specs.Questions.{after};
ghost use Rattle.sheet.specs.Sheets.{at_open, content, holds};
ghost use Rattle.sheet.specs.Trials.{decision};
ghost use Rattle.std.specs.Option.{unwrap_or};
ghost use Rattle.std.specs.Prelude.{◌≡◌, None};

use crate::sheet::{Returned, Sheet, Slip};

impl Sheet {
    /// Makes the sheet what it was at open, and ends the trial. A slip that is refused is handed back.
    pub fn back(&mut self, slip: Slip) -> Result<(), Returned>
        ensures answer { slip_by_number result ≡ ended (decision (holds self.old) (Back slip) 0) slip }
        ensures held { content self.new ≡ after (decision (holds self.old) (Back slip) 0) (unwrap_or (at_open self.old) (content self.old)) (content self.old) }
        ensures saved { at_open self.new ≡ after (decision (holds self.old) (Back slip) 0) None (at_open self.old) }
        ensures number { self.new.number ≡ self.old.number }
        ensures law { GoesOn self.old (Back slip) no_lists (said_back (slip_by_number result)) no_lists self.new }
    {
        self.spend(slip)?;
        self.holding.copy_from(&self.saved);
        self.trial = false;
        Ok(())
    }
}
