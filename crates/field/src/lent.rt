//! A field that is only lent is a field, for a layer that wants to hold one.

use crate::interface::Field;
use crate::window::Window;

impl<F: Field> Field for &F {
    ghost windows = { λ s. F.Field.windows s.now };

    ghost bounded = { λ s k. F.Field.bounded s.now k };

    fn count(&self) -> usize {
        (**self).count()
    }

    fn window(&self, place: usize) -> Window {
        (**self).window(place)
    }
}
