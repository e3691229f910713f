//! Every call by one door, and the law over whole runs on it.

ghost use Rattle.sheet.specs.Answers.{said};
ghost use Rattle.sheet.specs.Book.{lists};
ghost use Rattle.sheet.specs.Law.{FieldTold, GoesOn};
ghost use Rattle.sheet.specs.OneBook.{OneBook};
ghost use Rattle.sheet.specs.OneCall.{ComesTo};
ghost use Rattle.sheet.specs.declared.call.Request.TheVariants.{Ask, Make};
ghost use Rattle.std.specs.Prelude.{◌≡◌};

use crate::call::{Answer, Call, Refused, Request};
use crate::sheet::Sheet;
use field::Field;
use reckoning::Start;
use reckoning::range::range;
use theory::Span;

impl Sheet {
    /// Makes a call. It comes to what the book would have of it on what the sheet holds; whatever calls came before,
    /// the run goes on by the law.
    pub fn perform(
        &mut self,
        call: Call,
        starts: &mut [Start],
        spans: &mut [Span],
    ) -> Result<Answer, Refused>
        ensures step { ComesTo self.old call (lists starts.old spans.old) (said result) (lists starts.new spans.new) self.new }
        ensures law { GoesOn self.old call (lists starts.old spans.old) (said result) (lists starts.new spans.new) self.new }
    {
        // A match, not closures: calls are values, which the plain book is fed too.
        match call {
            Call::Enter {
                number,
                early,
                late,
            } => {
                self.enter(number, early, late)?;
                Ok(Answer::Done)
            }
            Call::Change {
                number,
                early,
                late,
            } => {
                self.change(number, early, late)?;
                Ok(Answer::Done)
            }
            Call::Withdraw { number } => {
                self.withdraw(number)?;
                Ok(Answer::Done)
            }
            Call::Pace { seconds } => {
                self.pace(seconds)?;
                Ok(Answer::Done)
            }
            Call::CallUp { number, time } => {
                self.call(number, time)?;
                Ok(Answer::Done)
            }
            Call::StandDown { number } => {
                self.stand_down(number)?;
                Ok(Answer::Done)
            }
            Call::SendAway { number } => {
                self.away(number)?;
                Ok(Answer::Done)
            }
            Call::Open => Ok(Answer::Opened(self.open()?)),
            Call::Keep { slip } => {
                self.keep(slip)?;
                Ok(Answer::Done)
            }
            Call::Back { slip } => {
                self.back(slip)?;
                Ok(Answer::Done)
            }
            Call::Order => Ok(Answer::Counted(self.order(starts)?)),
            Call::Through { number, time } => Ok(Answer::Counted(self.through(
                number, time, starts,
            )?)),
            Call::RangeOf { number } => Ok(Answer::Ranged(self.range(number)?)),
            Call::Spans => Ok(Answer::Counted(self.spans(spans)?)),
        }
    }

    /// Meets a request: a call on the sheet, or range of a place in any field, which leaves the sheet and the lists as
    /// they are.
    pub fn serve<F: Field>(
        &mut self,
        request: Request<'_, F>,
        starts: &mut [Start],
        spans: &mut [Span],
    ) -> Result<Answer, Refused>
        ensures law { elim request.entry [ Make call ↦ GoesOn self.old call (lists starts.old spans.old) (said result) (lists starts.new spans.new) self.new | Ask field pace place ↦ FieldTold (F.Field.windows field.now) pace place (said result) × (self.new ≡ self.old) × (starts.new ≡ starts.old) × (spans.new ≡ spans.old) ] }
        ensures alone { OneBook }
    {
        // A match, not closures: a request is a value, and the clause tells its two cases apart.
        match request {
            Request::Make { call } => self.perform(call, starts, spans),
            Request::Ask { field, pace, place } => Ok(Answer::Ranged(range(field, pace, place)?)),
        }
    }
}
