//! A start sheet: the groups that are to start at one tee, and the calls on it.
//!
//! `Sheet` is the sheet, `Row` with its `Standing` a group on it, and `Rows` its rows as a field, on
//! which layers stand.

#![tactic(auto)]

mod bounds;
pub mod call;
mod one_more;
pub mod row;
pub mod rows;
pub mod sheet;
mod table;

pub use call::{Answer, Call, Refused, Request};
pub use row::{Row, Standing};
pub use rows::Rows;
pub use sheet::{Returned, Sheet, Slip};
