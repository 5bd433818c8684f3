//! The points table: its records by field (mm, tenths of a mm), or its first fault.
//!
//! Proved: the points table: its records read by field, or its first fault; accepted points are
//! within their bounds, complete and named apart; a point is found by its name exactly where it is
//! there.
//!
//! Said by: `read_points`, clauses `answer`, `accepted`; `Points::find`,
//! `first_point_fault_is_least`.
//!
//! Caller: `judge` of `geoplan/src/load.rt`.
#![tactic(auto)]

mod columns;
mod fault;
mod kinds;
mod laws;
mod part;
mod points;
mod read;
mod record;

pub use fault::{FaultKind, TableAnswer, TableFault, TableName};
pub use kinds::{NAME_KINDS, NUMBER_KINDS};
pub use laws::first_point_fault_is_least;
pub use part::Part;
pub use points::Points;
pub use read::read_points;
pub use record::PointRecord;
pub use table_columns::Name;
