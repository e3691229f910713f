//! The field that is read in place from bytes.

ghost use Rattle.std.specs.Prelude.{◌≡◌, ◌+◌, ◌<◌, length};
ghost use Rattle.field.specs.Strip.{records, word, numbers_of, records_told};

use crate::interface::{Field, Numbered};
use crate::window::Window;

/// How many bytes a record has.
pub const RECORD: usize = 10;

/// Ten-byte records, high byte first: number (16 bits), early and late (signed, 32 bits). A shorter
/// tail is no record.
#[derive(Drop)]
pub struct Strip<'a> {
    pub bytes: &'a [u8],
}

impl Strip<'_> {
    /// The signed 32-bit number that begins at a byte.
    fn word(&self, at: usize) -> i32
        requires { at + 3 < length self.now.bytes.now }
        ensures { result ≡ word self.now.bytes.now at }
    {
        let b = self.bytes;
        i32::from_be_bytes([b[at], b[at + 1], b[at + 2], b[at + 3]])
    }
}

impl Field for Strip<'_> {
    ghost windows = { λ s. records s.bytes.now };

    ghost bounded = { λ s k. records_told s.bytes.now k };

    fn count(&self) -> usize {
        self.bytes.len() / RECORD
    }

    fn window(&self, place: usize) -> Window {
        if place < self.bytes.len() / RECORD {
            let at = place * RECORD;
            Window::new(self.word(at + 2), self.word(at + 6))
        } else {
            Window::outside()
        }
    }
}

impl Numbered for Strip<'_> {
    ghost numbers = { λ s. numbers_of s.bytes.now };

    fn number(&self, place: usize) -> u16 {
        if place < self.bytes.len() / RECORD {
            let at = place * RECORD;
            u16::from_be_bytes([self.bytes[at], self.bytes[at + 1]])
        } else {
            0
        }
    }
}
