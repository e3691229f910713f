//! Fields: what a reckoning reads.
//!
//! A field means a list of windows, counted by place from 0. `Field` is the interface, `Numbered`
//! adds group numbers, `Strip` reads a field from bytes, and `Reversed` and `Held` are
//! layers that stand on any field, owned or lent.

#![tactic(auto)]

pub mod held;
pub mod interface;
mod lent;
pub mod refusal;
pub mod reversed;
pub mod strip;
pub mod window;

pub use held::Held;
pub use interface::{Field, Numbered};
pub use refusal::Refusal;
pub use reversed::Reversed;
pub use strip::Strip;
pub use window::Window;
