//! The bounds of what a sheet takes.

ghost use Rattle.reckoning.specs.Questions.{in_time};
ghost use Rattle.sheet.specs.Content.{paced};
ghost use Rattle.sheet.specs.Sound.{numbered, within};
ghost use Rattle.std.specs.Prelude.{◌≡◌};

/// The most groups that a sheet holds.
pub const MOST_GROUPS: usize = 64;

/// The furthest time from the announced first start, in seconds.
const FURTHEST: i32 = 86_400;

/// The highest number of a group; the lowest is 1.
const HIGHEST_NUMBER: u16 = 9_999;

/// The longest pace, in seconds; the shortest is 1.
const LONGEST_PACE: u16 = 3_600;

/// Whether a time is one that a sheet takes.
pub fn is_in_time(time: i32) -> bool
    ensures { result ≡ in_time time }
{
    (-FURTHEST..=FURTHEST).contains(&time)
}

/// Whether a number is one that a group may have.
pub fn is_number(number: u16) -> bool
    ensures { result ≡ numbered number }
{
    (1..=HIGHEST_NUMBER).contains(&number)
}

/// Whether a pace is one that a sheet may have.
pub fn is_pace(pace: u16) -> bool
    ensures { result ≡ paced pace }
{
    (1..=LONGEST_PACE).contains(&pace)
}

/// Whether a time lies in a window.
pub fn is_within(window: (i32, i32), time: i32) -> bool
    ensures { result ≡ within window.0 window.1 time }
{
    (window.0..=window.1).contains(&time)
}
