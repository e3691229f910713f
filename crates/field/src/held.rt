//! The layer that gives one place another window.

ghost use Rattle.std.specs.Prelude.{◌≡◌, ◌<◌, slice_set};
ghost use Rattle.field.specs.Windows.{window};
ghost use Rattle.field.specs.Held.{held_told};
ghost use Rattle.std.specs.Int.Signed.{mag};

use crate::interface::{Field, Numbered};
use crate::window::Window;

/// The field below with the window of one place held to another. A place outside alters nothing.
#[derive(Drop)]
pub struct Held<F> {
    below: F,
    place: usize,
    window: Window,
    ghost fitting: { mag window.early < 2147483648 },
    ghost fitted: { mag window.late < 2147483648 },
}

impl<F> Held<F> {
    /// The field `below` with the window of `place` held to `early`..`late`.
    // Two times of 32 bits and no `Window`, whose ends may be further than a field may tell.
    pub fn new(below: F, place: usize, early: i32, late: i32) -> Held<F>
        ensures { (result.below ≡ below) × (result.place ≡ place) × (result.window ≡ window early late) }
    {
        Held {
            below,
            place,
            window: Window::new(early, late),
        }
    }
}

impl<F: Field> Field for Held<F> {
    ghost windows = { λ s. slice_set (F.Field.windows s.below) s.place s.window };

    ghost bounded = { λ s k. held_told _ s.place s.window s.fitting s.fitted (F.Field.bounded s.below) k };

    fn count(&self) -> usize {
        self.below.count()
    }

    fn window(&self, place: usize) -> Window {
        if place == self.place && place < self.below.count() {
            self.window
        } else {
            self.below.window(place)
        }
    }
}

impl<F: Numbered> Numbered for Held<F> {
    ghost numbers = { λ s. F.Numbered.numbers s.below };

    fn number(&self, place: usize) -> u16 {
        self.below.number(place)
    }
}
