//! The columns that every table shares, and the one loop that reads a table, over any kind of
//! record and any kind of fault.
//!
//! Proved: a table of any kind is read as what its records stand for, in their order, or its first
//! fault; records that have names are found by them.
//!
//! Said by: `read_table`, `read_named_table`, clauses `answer`, `right`; `NamedRecords::find`.
//!
//! Caller: `read_points` of `point_tables/src/read.rt`.
#![tactic(auto)]

mod kinds;
mod name;
mod named_records;
mod named_table;
mod number;
mod refusal;
mod shape;
mod table;

pub use kinds::{NameKinds, NumberKinds};
pub use name::Name;
pub use named_records::{NamedRecord, NamedRecords};
pub use named_table::{NamedTable, read_named_table};
pub use refusal::Refusal;
pub use shape::Shape;
pub use table::{Table, read_table};
