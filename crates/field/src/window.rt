//! A window of start times.

ghost use Rattle.field.specs.Windows.{outside, window};
ghost use Rattle.std.specs.Prelude.{◌≡◌};

/// An early and a late start, both included, in seconds from the announced first start.
#[derive(Clone, Copy, Debug, Default, PartialEq, Eq)]
pub struct Window {
    pub early: i64,
    pub late: i64,
}

impl Window {
    /// The window early..late.
    pub fn new(early: i32, late: i32) -> Window
        ensures { result ≡ window early late }
    {
        Window {
            early: i64::from(early),
            late: i64::from(late),
        }
    }

    /// The window 0..0, which every field tells at a place outside.
    pub fn outside() -> Window
        ensures { result ≡ outside }
    {
        Window::default()
    }
}
