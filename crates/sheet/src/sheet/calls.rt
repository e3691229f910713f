//! The calls that change a sheet. Each puts its questions first, and writes on its last lines alone.

ghost use Rattle.sheet.specs.Calls.{CallUp, Change, Enter, Pace, SendAway, StandDown, Withdraw};
ghost use Rattle.sheet.specs.Promises.{Makes};
ghost use Rattle.sheet.specs.Questions.{Thirteen};
ghost use Rattle.sheet.specs.Sheets.{content};

use crate::row::{Row, Step};
use crate::sheet::Sheet;
use field::Refusal;

impl Sheet {
    /// Adds a waiting group with a number and a window.
    pub fn enter(&mut self, number: u16, early: i32, late: i32) -> Result<(), Refusal>
        ensures makes { Makes (Enter number early late) self.old result self.new }
        ensures thirteen { Thirteen (content self.old) (Enter number early late) 0 result }
    {
        let place = self.holding.ask_enter(number, early, late)?;
        let row = Row::waiting(number, early, late);
        self.holding.table.insert(place, row);
        Ok(())
    }

    /// Gives a waiting group a new window.
    pub fn change(&mut self, number: u16, early: i32, late: i32) -> Result<(), Refusal>
        ensures makes { Makes (Change number early late) self.old result self.new }
        ensures thirteen { Thirteen (content self.old) (Change number early late) 0 result }
    {
        let (place, row) = self.holding.ask_change(number, early, late)?;
        *self.holding.table.row_mut(place) = row;
        Ok(())
    }

    /// Removes a waiting or called group. Its row serves again.
    pub fn withdraw(&mut self, number: u16) -> Result<(), Refusal>
        ensures { Makes (Withdraw number) self.old result self.new }
    {
        let (place, _) = self.holding.ask_step(number, Step::Withdraw)?;
        self.holding.table.remove(place);
        Ok(())
    }

    /// Sets the pace.
    pub fn pace(&mut self, seconds: u16) -> Result<(), Refusal>
        ensures makes { Makes (Pace seconds) self.old result self.new }
        ensures thirteen { Thirteen (content self.old) (Pace seconds) 0 result }
    {
        self.holding.ask_pace(seconds)?;
        self.holding.pace = seconds;
        Ok(())
    }

    /// Makes a waiting group called at a time.
    pub fn call(&mut self, number: u16, time: i32) -> Result<(), Refusal>
        ensures makes { Makes (CallUp number time) self.old result self.new }
        ensures thirteen { Thirteen (content self.old) (CallUp number time) 0 result }
    {
        let (place, row) = self.holding.ask_call(number, time)?;
        *self.holding.table.row_mut(place) = row;
        Ok(())
    }

    /// Makes a called group waiting in its old window.
    pub fn stand_down(&mut self, number: u16) -> Result<(), Refusal>
        ensures { Makes (StandDown number) self.old result self.new }
    {
        let (place, row) = self.holding.ask_step(number, Step::StandDown)?;
        *self.holding.table.row_mut(place) = row;
        Ok(())
    }

    /// Makes a called group away at the time that it was called for. What has gone cannot be taken back, so no trial
    /// may be open.
    pub fn away(&mut self, number: u16) -> Result<(), Refusal>
        ensures { Makes (SendAway number) self.old result self.new }
    {
        if self.trial {
            return Err(Refusal::TrialOpen);
        }
        let (place, row) = self.holding.ask_step(number, Step::SendAway)?;
        *self.holding.table.row_mut(place) = row;
        Ok(())
    }
}
