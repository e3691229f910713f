//! What is told of a place.

/// The first and the last start that orders of play give a place.
#[derive(Clone, Copy, Debug, PartialEq, Eq)]
pub struct Range {
    pub first: i64,
    pub last: i64,
}
