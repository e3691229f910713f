//! The layer that turns time round.

ghost use Rattle.field.specs.Reversed.{turned, turned_told};
ghost use Rattle.std.specs.Prelude.{map};

use crate::interface::{Field, Numbered};
use crate::window::Window;

/// The field below with each window early..late turned into −late..−early, at the same place.
#[derive(Drop)]
pub struct Reversed<F>(pub F);

impl<F: Field> Field for Reversed<F> {
    ghost windows = { λ s. map turned (F.Field.windows s.0) };

    ghost bounded = { λ s k. turned_told _ k (F.Field.bounded s.0 k) };

    fn count(&self) -> usize {
        self.0.count()
    }

    fn window(&self, place: usize) -> Window {
        let Window { early, late } = self.0.window(place);
        Window {
            early: -late,
            late: -early,
        }
    }
}

impl<F: Numbered> Numbered for Reversed<F> {
    ghost numbers = { λ s. F.Numbered.numbers s.0 };

    fn number(&self, place: usize) -> u16 {
        self.0.number(place)
    }
}
