//! Whether a field has an order of play.

ghost use Rattle.field.specs.Refusals.{by_number};
ghost use Rattle.reckoning.specs.Lists.{decided, mapped};
ghost use Rattle.reckoning.specs.Questions.{refused};
ghost use Rattle.std.specs.Prelude.{◌≡◌, pos, None, Err};
ghost use Rattle.theory.specs.Method.{forbidden};
ghost use Rattle.theory.specs.Orders.{Possible};

use crate::reckon::reckon;
use crate::taken::Taken;
use field::{Field, Refusal};

/// Refuses a field that fails a question or has no order of play at the pace.
pub fn possible<F: Field>(field: &F, pace: u16) -> Result<(), Refusal>
    ensures answer { by_number result ≡ decided (refused pace (F.Field.windows field.now)) (mapped (λ _. tt) (forbidden (pos pace) (F.Field.windows field.now))) }
    ensures thirteen { (by_number result ≡ Err 13 → (refused pace (F.Field.windows field.now) ≡ None) × (Possible (pos pace) (F.Field.windows field.now) → ⊥)) × (refused pace (F.Field.windows field.now) ≡ None → (Possible (pos pace) (F.Field.windows field.now) → ⊥) → by_number result ≡ Err 13) }
{
    let taken = Taken::of(field, pace)?;
    reckon(&taken)?;
    Ok(())
}
