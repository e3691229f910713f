//! What every kind of field tells.
//!
//! A field's meaning is a ghost list of windows, a function of the value alone. The questions borrow
//! the field and each answer is that list's, so no field can refuse a question, change, or answer
//! two like questions differently.

ghost use Rattle.std.specs.Prelude.{◌≡◌, ℕ, ◌≤◌, List, length, slice_index};
ghost use Rattle.field.specs.Windows.{Window, early_at, late_at, window_at, Told};

use crate::window::Window;

/// A list of windows, told place by place.
pub trait Field {
    ghost windows: { Self → List Window };

    ghost bounded: { (s : Self) (k : ℕ) → Told (early_at (windows s) k) × Told (late_at (windows s) k) };

    /// How many places there are.
    fn count(&self) -> usize
        ensures { result ≡ length (windows self.now) };

    /// The early and the late start at a place, both 0 at one outside.
    fn window(&self, place: usize) -> Window
        ensures { result ≡ window_at (windows self.now) place };
}

/// A field that also tells the group number at a place.
pub trait Numbered: Field {
    ghost numbers: { Self → List ℕ };

    /// The number of the group at a place, 0 at one outside.
    fn number(&self, place: usize) -> u16
        ensures value { result ≡ slice_index (numbers self.now) place }
        ensures outside { length (Self.Field.windows self.now) ≤ place → result ≡ 0 };
}
