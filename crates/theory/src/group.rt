//! A group of a field, before and after it has a start.

use field::Window;

/// A place of a field with its window.
#[derive(Clone, Copy, Debug, Default, PartialEq, Eq)]
pub struct Group {
    pub place: usize,
    pub win: Window,
}

/// A place with its start.
#[derive(Clone, Copy, Debug, Default, PartialEq, Eq)]
pub struct Played {
    pub place: usize,
    pub time: i64,
}
