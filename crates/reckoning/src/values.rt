//! The value kept for each place while the earlies fall.

ghost use Rattle.std.specs.Prelude.{◌≡◌, ◌≤◌, [], map, reverse, length, pos, ◌+ℤ◌, fold, MatchOption, if◌then◌else◌, int_le, int_lt};
ghost use Rattle.reckoning.specs.Values.{Timed, Near, Next, rest, paired, kept, lows, moved};
ghost use Rattle.std.specs.Int.{int_min};
ghost use Rattle.std.specs.List.{AllByRecursion, find};

use crate::closed::Closed;
use crate::taken::Taken;
use arrayvec::ArrayVec;
use field::Window;

/// No window has come in yet: each value is the late and the pace.
pub fn begin(taken: &Taken) -> ArrayVec<i64, 64>
    ensures { result.items ≡ map (λ w. w.late +ℤ taken.now.pace) taken.now.windows.items }
{
    let mut values = ArrayVec::new();
    for window in taken.windows() {
        values.push(window.late + taken.pace());
    }
    values
}

/// A window with this late comes in: one step back for each place whose late is no earlier.
fn move_back(taken: &Taken, closed: &Closed, late: i64, values: &mut [i64])
    requires room { length taken.now.windows.items ≤ length values.old }
    requires near { AllByRecursion (λ k. Near k.value) (paired taken.now.windows.items values.old) }
    ensures { paired taken.now.windows.items values.new ≡ map (moved taken.now.pace (reverse closed.now.spans.items) late) (paired taken.now.windows.items values.old) }
{
    let pace = taken.pace();
    // The values have a list of their own: in one list with the lates, 64 like windows take up to 1.6 times as long.
    for (at, window) in taken.windows().iter().enumerate() {
        // Written in either case: in one alone, they take up to 1.3 times as long.
        values[at] = if late <= window.late {
            closed.greatest_outside(values[at] - pace)
        } else {
            values[at]
        };
    }
}

/// The windows with this early come in.
pub fn come_in(taken: &Taken, closed: &Closed, early: i64, values: &mut [i64])
    requires room { length taken.now.windows.items ≤ length values.old }
    requires kept { paired taken.now.windows.items values.old ≡ kept taken.now.pace taken.now.windows.items (reverse closed.now.spans.items) (early +ℤ pos 1) }
    ensures { paired taken.now.windows.items values.new ≡ kept taken.now.pace taken.now.windows.items (reverse closed.now.spans.items) early }
{
    for window in taken.windows() {
        if window.early == early {
            move_back(taken, closed, window.late, values);
        }
    }
}

/// The lesser of the value and m, where the value counts the window.
fn lesser(window: Window, value: i64, m: i64) -> i64
    ensures { result ≡ (if int_le value window.late then int_min m value else m) }
{
    if value <= window.late && value < m {
        value
    } else {
        m
    }
}

/// The least value that counts a window, or `cap` if that is less.
pub fn least(windows: &[Window], values: &[i64], cap: i64) -> i64
    requires room { length windows.now ≤ length values.now }
    ensures { result ≡ fold int_min cap (lows (paired windows.now values.now)) }
{
    let mut m = cap;
    // By index, as plain as a chain over `zip`.
    for place in 0..windows.len() {
        m = lesser(windows[place], values[place], m);
    }
    m
}

/// The first early before `bound`.
fn first_early(windows: &[Window], bound: i64) -> Option<i64>
    ensures { result ≡ find (λ e. int_lt e bound) (map (λ w. w.early) windows.now) }
{
    windows.iter().map(|w| w.early).find(|early| *early < bound)
}

/// The greatest early before `bound`.
pub fn next_early(windows: &[Window], bound: i64) -> Option<i64>
    requires { AllByRecursion Timed windows.now }
    ensures { MatchOption result (rest windows.now bound ≡ []) (λ e. Next windows.now bound e) }
{
    let first = first_early(windows, bound)?;
    // Not `filter`, which misses the bar of speed here.
    let top = windows
        .iter()
        .map(|window| {
            if window.early < bound {
                window.early
            } else {
                first
            }
        })
        .fold(first, i64::max);
    Some(top)
}
