//! The reckoning: closed spans, the written order, and the first and last start of any field.
//!
//! One reckoning of n groups makes O(n²) look-ups in the closed set, each at most a pass over its
//! spans, and reads the field once. A first start bisects a window: 18 more reckonings at the most.

#![tactic(auto)]

mod closed;
pub mod ends;
pub mod order;
pub mod possible;
pub mod range;
mod reckon;
pub mod spans;
pub mod start;
mod taken;
mod values;

pub use ends::Range;
pub use start::Start;
