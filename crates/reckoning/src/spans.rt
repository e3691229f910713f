//! The closed spans of a field.

ghost use Rattle.std.specs.Prelude.{◌≡◌, ◌≤◌, ◌++◌, length, take, drop, pos, IfOk};
ghost use Rattle.field.specs.Refusals.{by_number};
ghost use Rattle.reckoning.specs.Lists.{answer, leaves, Thirteen};
ghost use Rattle.reckoning.specs.Spans.{spans_told, Unused};

use crate::reckon::for_list;
use field::{Field, Refusal};
use theory::Span;

fn copy(found: &[Span], list: &mut [Span]) -> usize
    requires { length found.now ≤ length list.old }
    ensures answer { result ≡ length found.now }
    ensures list { list.new ≡ found.now ++ drop (length found.now) list.old }
{
    list[..found.len()].copy_from_slice(found);
    found.len()
}

/// Writes the closed spans in the order found, and answers how many there are.
pub fn spans<F: Field>(field: &F, pace: u16, list: &mut [Span]) -> Result<usize, Refusal>
    ensures answer { by_number result ≡ answer (spans_told pace (F.Field.windows field.now) (length list.old)) }
    ensures list { list.new ≡ leaves (spans_told pace (F.Field.windows field.now) (length list.old)) list.old }
    ensures thirteen { Thirteen pace (F.Field.windows field.now) (length list.old) result }
    ensures unused { IfOk result (λ n. Unused (pos pace) (F.Field.windows field.now) (take n list.new)) }
{
    let (_, closed) = for_list(field, pace, list.len())?;
    Ok(copy(closed.spans(), list))
}
