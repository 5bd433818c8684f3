//! The records of a table, one after another, each field as its text. After `NoMemory` the stream
//! is at its end.
//!
//! Proved: the records of a table, one after another, and that its first fault is the least pair
//! of record and rule.
//!
//! Said by: `TableRows::next`, `first_fault_is_least`.
//!
//! Caller: `read_table` of `table_columns/src/table.rt`.
#![tactic(auto)]

mod faults;
mod field_text;
mod mark;
mod row;
mod rows;

pub use faults::first_fault_is_least;
pub use field_text::text_of;
pub use mark::has_second_mark;
pub use row::TableRow;
pub use rows::TableRows;
