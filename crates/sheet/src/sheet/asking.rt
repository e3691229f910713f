//! The questions of each call, in their order. Asking changes nothing; it answers where the call is to write,
//! and what.

ghost use Rattle.field.specs.Refusals.{by_number, first_no};
ghost use Rattle.sheet.specs.Calls.{CallUp, Change, Enter, Pace, stepped_at};
ghost use Rattle.sheet.specs.Content.{place, place_for};
ghost use Rattle.sheet.specs.Questions.{answered, q_inside, q_on, q_standing, q_time, q_times, q_upright, verdict};
ghost use Rattle.sheet.specs.Sheets.{content_of};
ghost use Rattle.std.specs.Prelude.{◌≡◌, [], ◌∷◌};

use crate::bounds::{MOST_GROUPS, is_in_time, is_number, is_pace, is_within};
use crate::row::{Row, Step};
use crate::sheet::Holding;
use field::Refusal;

impl Holding {
    /// The place for a group to enter.
    pub(super) fn ask_enter(&self, number: u16, early: i32, late: i32) -> Result<usize, Refusal>
        ensures { let c = content_of self.now in by_number result ≡ answered (verdict c (Enter number early late) 0) (place_for number c.rows) }
    {
        if self.count() >= MOST_GROUPS {
            return Err(Refusal::TooManyGroups);
        }
        if !is_number(number) {
            return Err(Refusal::NumberOutOfRange);
        }
        ask_window(early, late)?;
        let Err(place) = self.search(number) else {
            return Err(Refusal::NumberTaken);
        };
        self.plays_also(place, Row::waiting(number, early, late))?;
        Ok(place)
    }

    /// The place of a group, and its row once it has taken a step.
    pub(super) fn ask_step(&self, number: u16, step: Step) -> Result<(usize, Row), Refusal>
        ensures { let c = content_of self.now in by_number result ≡ answered (first_no (q_on number c.rows ∷ q_standing number step c.rows ∷ [])) (stepped_at number step c.rows) }
    {
        let place = self.find(number)?;
        let row = self.table.rows()[place].stepped(step)?;
        Ok((place, row))
    }

    /// The place of a group, and its row in another window.
    pub(super) fn ask_change(
        &self,
        number: u16,
        early: i32,
        late: i32,
    ) -> Result<(usize, Row), Refusal>
        ensures { let c = content_of self.now in by_number result ≡ answered (verdict c (Change number early late) 0) (stepped_at number (Step.Change early late) c.rows) }
    {
        ask_window(early, late)?;
        let (place, row) = self.ask_step(number, Step::Change { early, late })?;
        self.plays_with(place, row)?;
        Ok((place, row))
    }

    /// Whether another pace may be set.
    pub(super) fn ask_pace(&self, pace: u16) -> Result<(), Refusal>
        ensures { let c = content_of self.now in by_number result ≡ answered (verdict c (Pace pace) 0) tt }
    {
        if !is_pace(pace) {
            return Err(Refusal::PaceOutOfRange);
        }
        self.plays_at(pace)
    }

    /// The place of a group, and its row called at a time.
    pub(super) fn ask_call(&self, number: u16, time: i32) -> Result<(usize, Row), Refusal>
        ensures { let c = content_of self.now in by_number result ≡ answered (verdict c (CallUp number time) 0) (stepped_at number (Step.CallUp time) c.rows) }
    {
        if !is_in_time(time) {
            return Err(Refusal::TimeOutOfRange);
        }
        let (place, row) = self.ask_step(number, Step::CallUp(time))?;
        if !is_within(self.table.rows()[place].counts(), time) {
            return Err(Refusal::OutsideWindow);
        }
        self.plays_with(place, row)?;
        Ok((place, row))
    }

    /// The place of a group that is to be held at a time.
    pub(super) fn ask_hold(&self, number: u16, time: i32) -> Result<usize, Refusal>
        ensures { let c = content_of self.now in by_number result ≡ answered (first_no (q_time time ∷ q_on number c.rows ∷ q_inside number time c.rows ∷ [])) (place number c.rows) }
    {
        if !is_in_time(time) {
            return Err(Refusal::TimeOutOfRange);
        }
        let place = self.find(number)?;
        if !is_within(self.table.rows()[place].counts(), time) {
            return Err(Refusal::OutsideWindow);
        }
        Ok(place)
    }
}

/// Both times, and then that early is at most late.
fn ask_window(early: i32, late: i32) -> Result<(), Refusal>
    ensures { by_number result ≡ answered (first_no (q_times early late ∷ q_upright early late ∷ [])) tt }
{
    if !is_in_time(early) || !is_in_time(late) {
        return Err(Refusal::TimeOutOfRange);
    }
    if early > late {
        return Err(Refusal::EarlyAfterLate);
    }
    Ok(())
}
