//! A page, whose text is what was added to it so far.

ghost use Rattle.std.specs.Prelude.{◌≤◌, length};
ghost use Rattle.page.specs.Room.{most};

use arrayvec::ArrayVec;

mod writing;

/// The room of a page: 64 lines of 90 bytes.
pub const ROOM: usize = 5760;

/// A text of at most 5,760 bytes.
#[derive(Drop)]
pub struct Page {
    bytes: ArrayVec<u8, ROOM>,
    ghost ok: { length bytes.items ≤ most },
}
