//! A closed span of times.

ghost use Rattle.std.specs.Fmt.{signed_decimal};
ghost use Rattle.std.specs.Prelude.{◌++◌, Some, codes};

use std::fmt;

/// The times first..last, both included, at which no group starts.
#[repr(C)]
#[derive(Clone, Copy, Debug, Default, PartialEq, Eq)]
pub struct Span {
    pub first: i64,
    pub last: i64,
}

impl fmt::Display for Span {
    ghost output = { λ s. Some (signed_decimal s.first ++ (codes ".." ++ signed_decimal s.last)) };

    fn fmt<W: fmt::Write>(&self, f: &mut fmt::Formatter<W>) -> fmt::Result {
        let first = self.first;
        let last = self.last;
        write!(f, "{first}..{last}")
    }
}
