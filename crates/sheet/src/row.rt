//! A group's row, and what each standing allows.

ghost use Rattle.field.specs.Refusals.{by_number};
ghost use Rattle.sheet.specs.Standings.{counts, stepped, stood, waiting};
ghost use Rattle.std.specs.Prelude.{◌≡◌};

use field::{Refusal, Window};

/// How far a group has come: it waits, is called to start at a time, or went away at that time.
#[derive(Clone, Copy, Debug, Default, PartialEq, Eq)]
pub enum Standing {
    #[default]
    Waiting,
    Called(i32),
    Away(i32),
}

/// A group on the sheet, with its window early..late in seconds from the announced first start.
#[derive(Clone, Copy, Debug, Default, PartialEq, Eq)]
pub struct Row {
    pub number: u16,
    // Each end by its name, as the rules' calls and records have them: a pair would be one name more at each use.
    pub early: i32,
    pub late: i32,
    pub standing: Standing,
}

/// What a call wants of a group on the sheet.
#[derive(Clone, Copy)]
pub enum Step {
    /// That it waits in another window.
    Change { early: i32, late: i32 },
    /// That it leaves the sheet.
    Withdraw,
    /// That it is called to start at a time.
    CallUp(i32),
    /// That it waits again, in its old window.
    StandDown,
    /// That it goes at the time that it is called for.
    SendAway,
}

impl Row {
    /// A waiting group.
    pub fn waiting(number: u16, early: i32, late: i32) -> Row
        ensures { result ≡ waiting number early late }
    {
        Row {
            number,
            early,
            late,
            standing: Standing::Waiting,
        }
    }

    /// The same group with another standing.
    fn stood(self, standing: Standing) -> Row
        ensures { result ≡ stood self standing }
    {
        Row { standing, ..self }
    }

    /// The early and the late of the window that counts.
    // A pair of 32-bit times, as `Held` takes them.
    pub fn counts(&self) -> (i32, i32)
        ensures early { result.0 ≡ (counts self.now).early }
        ensures late { result.1 ≡ (counts self.now).late }
    {
        match self.standing {
            Standing::Waiting => (self.early, self.late),
            Standing::Called(time) | Standing::Away(time) => (time, time),
        }
    }

    /// The window that counts.
    pub fn window(&self) -> Window
        ensures { result ≡ counts self.now }
    {
        let (early, late) = self.counts();
        Window::new(early, late)
    }

    /// The row that a step makes of this one, if the standing allows it. A withdrawn row goes as it is.
    pub fn stepped(self, step: Step) -> Result<Row, Refusal>
        ensures { by_number result ≡ stepped self step }
    {
        // One match of standing and step: it is the rules' table, and each line of it is another row.
        match (self.standing, step) {
            (Standing::Waiting, Step::Change { early, late }) => {
                Ok(Row::waiting(self.number, early, late))
            }
            (Standing::Waiting | Standing::Called(_), Step::Withdraw) => Ok(self),
            (Standing::Waiting, Step::CallUp(time)) => Ok(self.stood(Standing::Called(time))),
            (Standing::Called(_), Step::StandDown) => Ok(self.stood(Standing::Waiting)),
            (Standing::Called(time), Step::SendAway) => Ok(self.stood(Standing::Away(time))),
            _ => Err(Refusal::WrongStanding),
        }
    }
}
