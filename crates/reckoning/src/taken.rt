//! A field that passed the questions, read once.

ghost use Rattle.std.specs.Prelude.{◌≡◌, ◌<◌, ◌≤◌, length, pos, Some, None, MatchResult};
ghost use Rattle.field.specs.Refusals.{number_of};
ghost use Rattle.reckoning.specs.Questions.{every, in_time, timed, upright, refused};
ghost use Rattle.reckoning.specs.Values.{InTime, Timed, Pace};
ghost use Rattle.std.proofs.Props.{props};
ghost use Rattle.std.specs.List.{AllByRecursion};
ghost use Rattle.theory.specs.Theorem.{cut};

use arrayvec::ArrayVec;
use field::{Field, Refusal, Window};

/// The windows of a field by place, and the pace.
#[derive(Drop)]
pub struct Taken {
    windows: ArrayVec<Window, 64>,
    pace: i64,
    ghost timed: { AllByRecursion Timed windows.items } by { Prim.hlevel props },
    ghost paced: { Pace pace },
}

impl Taken {
    /// A field that passes the questions 3, 4, 6 and 7.
    pub fn of<F: Field>(field: &F, pace: u16) -> Result<Taken, Refusal>
        ensures { MatchResult result (λ t. (refused pace (F.Field.windows field.now) ≡ None) × (t.windows.items ≡ F.Field.windows field.now) × (t.pace ≡ pos pace)) (λ q. refused pace (F.Field.windows field.now) ≡ Some (number_of q)) }
    {
        if pace < 1 || pace > 3600 {
            return Err(Refusal::PaceOutOfRange);
        }
        if field.count() > 64 {
            return Err(Refusal::TooManyGroups);
        }
        let windows = gather(field);
        if !all_timed(&windows) {
            return Err(Refusal::TimeOutOfRange);
        }
        if !all_upright(&windows) {
            return Err(Refusal::EarlyAfterLate);
        }
        Ok(Taken {
            windows,
            pace: i64::from(pace),
        })
    }

    /// The windows by place.
    pub fn windows(&self) -> &[Window]
        ensures windows { result.now ≡ self.now.windows.items }
        ensures few { length result.now ≤ 64 }
        ensures timed { AllByRecursion Timed result.now }
    {
        &self.windows
    }

    /// The pace.
    pub fn pace(&self) -> i64
        ensures pace { result ≡ self.now.pace }
        ensures paced { Pace result }
    {
        self.pace
    }

    /// The same field with the window of one place cut to its early..late. A place outside alters nothing.
    // Entry by entry, as a clone would go, and one of them is cut.
    pub fn cut(&self, place: usize, late: i64) -> Taken
        requires { InTime late }
        ensures windows { result.windows.items ≡ cut self.now.windows.items place late }
        ensures pace { result.pace ≡ self.now.pace }
    {
        let mut windows = ArrayVec::new();
        for (at, window) in self.windows.iter().enumerate() {
            windows.push(if at == place {
                Window { late, ..*window }
            } else {
                *window
            });
        }
        Taken {
            windows,
            pace: self.pace,
        }
    }
}

fn gather<F: Field>(field: &F) -> ArrayVec<Window, 64>
    requires { length (F.Field.windows field.now) ≤ 64 }
    ensures { result.items ≡ F.Field.windows field.now }
{
    let mut windows = ArrayVec::new();
    // By place: a field is asked, and has no list to go over.
    for place in 0..field.count() {
        windows.push(field.window(place));
    }
    windows
}

fn in_time(time: i64) -> bool
    ensures { result ≡ in_time time }
{
    (-86_400..=86_400).contains(&time)
}

fn all_timed(windows: &[Window]) -> bool
    ensures { result ≡ every timed windows.now }
{
    windows.iter().all(|w| in_time(w.early) && in_time(w.late))
}

fn all_upright(windows: &[Window]) -> bool
    ensures { result ≡ every upright windows.now }
{
    windows.iter().all(|w| w.early <= w.late)
}
