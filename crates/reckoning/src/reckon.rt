//! The reckoning: the closed spans of a field, or that there is no order of play.

ghost use Rattle.std.specs.Prelude.{◌≡◌, ◌≤◌, reverse, length, pos, ◌+ℤ◌, ◌-ℤ◌, Some, None, Err, IfOk, MatchResult};
ghost use Rattle.arrayvec.specs.ArrayVec.{array_vec_len};
ghost use Rattle.field.specs.Refusals.{number_of};
ghost use Rattle.reckoning.specs.Lists.{decided};
ghost use Rattle.reckoning.specs.Questions.{asked};
ghost use Rattle.reckoning.specs.Values.{Near};
ghost use Rattle.theory.specs.Method.{forbidden};

use crate::closed::Closed;
use crate::taken::Taken;
use crate::values::{begin, come_in, least, next_early};
use field::{Field, Refusal};
use theory::Span;

/// What joins at an early where the least value is m.
fn joining(m: i64, pace: i64, early: i64) -> Span
    requires near { Near m × Near pace × Near early }
    ensures { result ≡ record { first = (m -ℤ pace) +ℤ pos 1; last = early -ℤ pos 1 } }
{
    Span {
        first: m - pace + 1,
        last: early - 1,
    }
}

/// The closed spans, or a refusal if there is no order of play.
pub fn reckon(taken: &Taken) -> Result<Closed, Refusal>
    ensures told { MatchResult result (λ c. forbidden taken.now.pace taken.now.windows.items ≡ Some (reverse c.spans.items)) (λ q. (number_of q ≡ 13) × (forbidden taken.now.pace taken.now.windows.items ≡ None)) }
    ensures few { IfOk result (λ c. array_vec_len c.spans ≤ array_vec_len taken.now.windows) }
{
    let pace = taken.pace();
    let mut closed = Closed::none();
    let mut values = begin(taken);
    let mut bound = 86_401;
    while let Some(early) = next_early(taken.windows(), bound) {
        come_in(taken, &closed, early, &mut values);
        let m = least(taken.windows(), &values, early + pace);
        if m < early {
            return Err(Refusal::NoOrder);
        }
        closed.join(joining(m, pace, early));
        bound = early;
    }
    Ok(closed)
}

/// The field and its closed spans, for a call that writes a list with so much room.
// Inlined, since else its two lists are moved on the way out.
#[inline(always)]
pub fn for_list<F: Field>(field: &F, pace: u16, room: usize) -> Result<(Taken, Closed), Refusal>
    ensures told { MatchResult result (λ r. (asked pace (F.Field.windows field.now) room ≡ None) × (r.0.windows.items ≡ F.Field.windows field.now) × (r.0.pace ≡ pos pace) × (forbidden (pos pace) (F.Field.windows field.now) ≡ Some (reverse r.1.spans.items))) (λ q. decided (asked pace (F.Field.windows field.now) room) (forbidden (pos pace) (F.Field.windows field.now)) ≡ Err (number_of q)) }
    ensures few { IfOk result (λ r. array_vec_len r.1.spans ≤ length (F.Field.windows field.now)) }
{
    let taken = Taken::of(field, pace)?;
    if room < taken.windows().len() {
        return Err(Refusal::ListTooShort);
    }
    let closed = reckon(&taken)?;
    Ok((taken, closed))
}
