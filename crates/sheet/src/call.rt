//! A call on a sheet as a value, and its answer.

ghost use Rattle.sheet.specs.declared.call.Refused.TheVariants.{Alone, WithSlip};
ghost use Rattle.std.specs.Prelude.{◌≡◌};

use crate::sheet::{Returned, Slip};
use field::Refusal;
use reckoning::Range;

/// What may be asked of a sheet. A group is named by its number.
// Early and late stand beside each other, as in a row.
pub enum Call {
    Enter { number: u16, early: i32, late: i32 },
    Change { number: u16, early: i32, late: i32 },
    Withdraw { number: u16 },
    Pace { seconds: u16 },
    CallUp { number: u16, time: i32 },
    StandDown { number: u16 },
    SendAway { number: u16 },
    Open,
    Keep { slip: Slip },
    Back { slip: Slip },
    Order,
    Through { number: u16, time: i32 },
    RangeOf { number: u16 },
    Spans,
}

/// What a call answers that is not refused.
pub enum Answer {
    Done,
    /// A trial is open.
    Opened(Slip),
    /// So many entries were written.
    Counted(usize),
    Ranged(Range),
}

/// Why a call is refused.
pub enum Refused {
    /// By a question.
    Alone(Refusal),
    /// By the question of keep and back, and the slip is handed back.
    WithSlip(Returned),
}

impl From<Refusal> for Refused {
    ghost from_gives = { λ q r. r ≡ Alone q };

    fn from(refusal: Refusal) -> Refused {
        Refused::Alone(refusal)
    }
}

impl From<Returned> for Refused {
    ghost from_gives = { λ p r. r ≡ WithSlip p };

    fn from(returned: Returned) -> Refused {
        Refused::WithSlip(returned)
    }
}

/// A call on the sheet, or range of a place in a field.
pub enum Request<'a, F> {
    Make {
        call: Call,
    },
    Ask {
        field: &'a F,
        pace: u16,
        place: usize,
    },
}
