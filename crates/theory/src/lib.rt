//! Why the reckoning is right: windows, orders of play, closed sets of times, the method of
//! forbidden regions, and the scheduling theorem. No code runs here but the types that it speaks of.

#![tactic(auto)]

pub mod group;
pub mod lookups;
pub mod span;
pub mod theorem;

pub use group::{Group, Played};
pub use span::Span;
