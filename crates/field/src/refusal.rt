//! The closed list of the answers that refuse a call.

ghost use Rattle.field.specs.Refusals.{number_of, words_of};
ghost use Rattle.std.specs.Prelude.{◌≡◌, ◌++◌, Some, codes, decimal};

use std::error::Error;
use std::fmt;

/// Why a call is refused: each case is the question that was answered no, and its number.
#[derive(Clone, Copy, Debug, PartialEq, Eq)]
pub enum Refusal {
    /// Is no trial open?
    TrialOpen = 1,
    /// Is a trial open, and does the slip carry this sheet's number?
    WrongSlip = 2,
    /// Is the pace from 1 to 3,600 seconds?
    PaceOutOfRange = 3,
    /// Has the sheet fewer than 64 groups, or the field at most 64?
    TooManyGroups = 4,
    /// Is the number from 1 to 9,999?
    NumberOutOfRange = 5,
    /// Is every time from −86,400 to 86,400?
    TimeOutOfRange = 6,
    /// Is early at most late?
    EarlyAfterLate = 7,
    /// Is the named group on the sheet, or the named place in the field?
    Unknown = 8,
    /// Is the number not yet on the sheet?
    NumberTaken = 9,
    /// Does the group's standing allow the call?
    WrongStanding = 10,
    /// Is the time inside the window that counts?
    OutsideWindow = 11,
    /// Is the list long enough?
    ListTooShort = 12,
    /// Is there an order of play with the change made?
    NoOrder = 13,
}

impl Refusal {
    /// The number of the question that was answered no.
    // Not `From`: the number stands at each case, and `as` reads it.
    pub fn number(self) -> u8
        ensures { result ≡ number_of self }
    {
        self as u8
    }

    /// What is wrong, in words.
    fn words(self) -> &'static str
        ensures { result.now ≡ words_of self }
    {
        match self {
            Refusal::TrialOpen => "a trial is open",
            Refusal::WrongSlip => "no trial is open, or the slip is another sheet's",
            Refusal::PaceOutOfRange => "the pace is not from 1 to 3600 seconds",
            Refusal::TooManyGroups => "there are too many groups: 64 is the most",
            Refusal::NumberOutOfRange => "the group number is not from 1 to 9999",
            Refusal::TimeOutOfRange => "a time is not from -86400 to 86400",
            Refusal::EarlyAfterLate => "an early start is after its late start",
            Refusal::Unknown => "there is no such group or place",
            Refusal::NumberTaken => "the group number is taken",
            Refusal::WrongStanding => "the group's standing does not allow it",
            Refusal::OutsideWindow => "the time is outside the group's window",
            Refusal::ListTooShort => "the list is too short",
            Refusal::NoOrder => "there is no order of play",
        }
    }
}

impl fmt::Display for Refusal {
    ghost output = { λ q. Some (decimal (number_of q) ++ (codes ": " ++ words_of q)) };

    fn fmt<W: fmt::Write>(&self, f: &mut fmt::Formatter<W>) -> fmt::Result {
        let number = self.number();
        let words = self.words();
        write!(f, "{number}: {words}")
    }
}

impl Error for Refusal {}
