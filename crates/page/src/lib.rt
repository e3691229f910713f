//! A page of text with a fixed room: lines are added at its end, and it is copied out whole.

#![tactic(auto)]

pub mod page;

pub use page::Page;
