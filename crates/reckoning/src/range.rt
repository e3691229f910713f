//! The first and the last start of a place.

ghost use Rattle.std.specs.Prelude.{◌≡◌, ◌<◌, true, ◌≤ℤ◌, ◌<ℤ◌, is_some};
ghost use Rattle.arrayvec.specs.ArrayVec.{array_vec_len};
ghost use Rattle.reckoning.specs.Range.{RangeTold, FirstTold};
ghost use Rattle.reckoning.specs.Values.{InTime, Near};
ghost use Rattle.theory.specs.Method.{forbidden};
ghost use Rattle.theory.specs.Orders.{window_at};
ghost use Rattle.theory.specs.Theorem.{cut, First};

use crate::ends::Range;
use crate::reckon::reckon;
use crate::taken::Taken;
use field::{Field, Refusal, Reversed};

/// Has the field an order of play with the window of a place cut to its early..late?
fn is_possible(taken: &Taken, place: usize, late: i64) -> bool
    requires { InTime late }
    ensures { result ≡ is_some (forbidden taken.now.pace (cut taken.now.windows.items place late)) }
{
    reckon(&taken.cut(place, late)).is_ok()
}

/// A time between, not the last.
fn middle(low: i64, high: i64) -> i64
    requires { Near low × Near high × (low <ℤ high) }
    ensures { (low ≤ℤ result) × (result <ℤ high) }
{
    low + (high - low) / 2
}

/// The least time to which the window of a place can be cut.
fn bisect(taken: &Taken, place: usize) -> i64
    requires inside { place < array_vec_len taken.now.windows }
    requires upright { (window_at taken.now.windows.items place).early ≤ℤ (window_at taken.now.windows.items place).late }
    requires possible { is_some (forbidden taken.now.pace taken.now.windows.items) ≡ true }
    ensures { First taken.now.pace taken.now.windows.items place result }
{
    let window = taken.windows()[place];
    let mut low = window.early;
    let mut high = window.late;
    // The library's `partition_point` wants a slice, and times are none.
    while low < high {
        let mid = middle(low, high);
        if is_possible(taken, place, mid) {
            high = mid;
        } else {
            low = mid + 1;
        }
    }
    high
}

/// The least start that an order of play gives a place.
fn first_start<F: Field>(field: &F, pace: u16, place: usize) -> Result<i64, Refusal>
    ensures { FirstTold pace (F.Field.windows field.now) place result }
{
    let taken = Taken::of(field, pace)?;
    if place >= taken.windows().len() {
        return Err(Refusal::Unknown);
    }
    reckon(&taken)?;
    Ok(bisect(&taken, place))
}

/// Tells the first and the last start of a place.
pub fn range<F: Field>(field: &F, pace: u16, place: usize) -> Result<Range, Refusal>
    ensures exact { RangeTold pace (F.Field.windows field.now) place result }
{
    let first = first_start(field, pace, place)?;
    let turned = first_start(&Reversed(field), pace, place)?;
    Ok(Range {
        first,
        last: -turned,
    })
}
