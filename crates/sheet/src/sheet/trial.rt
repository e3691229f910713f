//! Trials: their slips, open and keep, and below back.

ghost use Rattle.field.specs.Refusals.{by_number, first_no};
ghost use Rattle.sheet.specs.Answers.{ended, said_back, said_by, slip as told_slip, slip_by_number};
ghost use Rattle.sheet.specs.Book.{no_lists};
ghost use Rattle.sheet.specs.Calls.{Keep, Open};
ghost use Rattle.sheet.specs.Law.{GoesOn};
ghost use Rattle.sheet.specs.Questions.{after, answered};
ghost use Rattle.sheet.specs.Sheets.{at_open, content, holds};
ghost use Rattle.sheet.specs.Trials.{decision, q_slip};
ghost use Rattle.std.specs.Prelude.{◌≡◌, [], ◌∷◌, Some, None};

use crate::sheet::Sheet;
use field::Refusal;

mod back;

/// A trial's slip. It carries the sheet number, and goes to keep or to back: neither copied nor let fall.
pub struct Slip {
    sheet: u16,
}

/// A slip that is handed back, and why.
pub struct Returned {
    pub refusal: Refusal,
    pub slip: Slip,
}

impl Sheet {
    /// Opens a trial, and answers its slip.
    // Open, keep and back state all clauses themselves: no two of them come to the same but in `number`.
    pub fn open(&mut self) -> Result<Slip, Refusal>
        ensures answer { by_number result ≡ answered (decision (holds self.old) Open 0) (record { sheet = self.old.number }) }
        ensures held { content self.new ≡ content self.old }
        ensures saved { at_open self.new ≡ after (decision (holds self.old) Open 0) (Some (content self.old)) (at_open self.old) }
        ensures number { self.new.number ≡ self.old.number }
        ensures law { GoesOn self.old Open no_lists (said_by (λ s. told_slip s.sheet) (by_number result)) no_lists self.new }
    {
        if self.trial {
            return Err(Refusal::TrialOpen);
        }
        self.saved.copy_from(&self.holding);
        self.trial = true;
        Ok(Slip { sheet: self.number })
    }

    /// Spends a slip: is a trial open, and does the slip carry this sheet's number? If not, it is handed back.
    fn spend(&self, slip: Slip) -> Result<(), Returned>
        ensures { slip_by_number result ≡ ended (first_no (q_slip (holds self.now) slip.sheet ∷ [])) slip }
    {
        if self.trial && slip.sheet == self.number {
            let Slip { sheet: _ } = slip;
            return Ok(());
        }
        Err(Returned {
            refusal: Refusal::WrongSlip,
            slip,
        })
    }

    /// Ends the trial. A slip that is refused is handed back.
    pub fn keep(&mut self, slip: Slip) -> Result<(), Returned>
        ensures answer { slip_by_number result ≡ ended (decision (holds self.old) (Keep slip) 0) slip }
        ensures held { content self.new ≡ content self.old }
        ensures saved { at_open self.new ≡ after (decision (holds self.old) (Keep slip) 0) None (at_open self.old) }
        ensures number { self.new.number ≡ self.old.number }
        ensures law { GoesOn self.old (Keep slip) no_lists (said_back (slip_by_number result)) no_lists self.new }
    {
        self.spend(slip)?;
        self.trial = false;
        Ok(())
    }
}
