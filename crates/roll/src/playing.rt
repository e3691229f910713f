//! Playing a roll on a sheet.

ghost use Rattle.std.specs.Prelude.{◌≡◌, ℕ};
ghost use Rattle.field.specs.Refusals.{by_number};
ghost use Rattle.roll.specs.Faults.{by_name};
ghost use Rattle.roll.specs.Meaning.{meaning};
ghost use Rattle.roll.specs.Playing.{changed, event, logged, played, unless};
ghost use Rattle.roll.specs.Records.{said};
ghost use Rattle.sheet.specs.Book.{History, more};
ghost use Rattle.sheet.specs.Law.{Lawful};
ghost use Rattle.sheet.specs.Questions.{after, answered};
ghost use Rattle.sheet.specs.Sheets.{at_open, holds};
ghost use Rattle.sheet.specs.Trials.{decision};

use crate::fault::Fault;
use crate::record::Record;
use crate::records::{Entry, Records};
use field::Refusal;
use sheet::{Answer, Call, Refused, Sheet};

/// The call that a record makes.
impl From<Record<'_>> for Call {
    ghost from_gives = { λ entry call. call ≡ (said entry).call };

    fn from(entry: Record<'_>) -> Call {
        match entry {
            Record::Pace { seconds } => Call::Pace { seconds },
            Record::Enter {
                number,
                early,
                late,
                ..
            } => Call::Enter {
                number,
                early,
                late,
            },
            Record::Change {
                number,
                early,
                late,
            } => Call::Change {
                number,
                early,
                late,
            },
            Record::Withdraw { number } => Call::Withdraw { number },
            Record::CallUp { number, time } => Call::CallUp { number, time },
            Record::StandDown { number } => Call::StandDown { number },
            Record::SendAway { number } => Call::SendAway { number },
        }
    }
}

/// Makes the call of a record.
fn make(sheet: &mut Sheet, record: &Record<'_>) -> Result<(), Refusal>
    ensures answer { by_number result ≡ answered (decision (holds sheet.old) (said «record».now).call 0) tt }
    ensures held { holds sheet.new ≡ after (decision (holds sheet.old) (said «record».now).call 0) (changed (holds sheet.old) (said «record».now).call) (holds sheet.old) }
    ensures saved { at_open sheet.new ≡ at_open sheet.old }
    ensures law { (n : ℕ) (es : History) → Lawful n es sheet.old → Lawful n (more es (event (holds sheet.old) (said «record».now).call)) sheet.new }
{
    match sheet.perform(Call::from(*record), &mut [], &mut []) {
        Ok(Answer::Done) => Ok(()),
        Err(Refused::Alone(refusal)) => Err(refusal),
        // No record opens or ends a trial, or asks for a list or a range.
        Ok(Answer::Opened(_slip)) => unreachable(),
        Err(Refused::WithSlip(_returned)) => unreachable(),
        Ok(Answer::Counted(_)) => unreachable(),
        Ok(Answer::Ranged(_)) => unreachable(),
    }
}

/// Plays a roll on a sheet: makes the calls of its records in order, and stops at the first fault. Records before the
/// fault stay played.
pub fn play(sheet: &mut Sheet, roll: &[u8]) -> Result<(), Fault>
    ensures answer { by_name result ≡ unless (played (holds sheet.old) roll.now).fault }
    ensures held { holds sheet.new ≡ (played (holds sheet.old) roll.now).held }
    ensures saved { at_open sheet.new ≡ at_open sheet.old }
    ensures law { (n : ℕ) (es : History) → Lawful n es sheet.old → Lawful n (logged (holds sheet.old) (meaning roll.now).records es) sheet.new }
{
    for entry in Records::of(roll) {
        let Entry { record, at } = entry?;
        make(sheet, &record).map_err(|refusal| Fault {
            cause: refusal.into(),
            at,
        })?;
    }
    Ok(())
}
