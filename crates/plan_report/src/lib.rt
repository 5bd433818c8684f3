//! The texts of a network's unknowns and rows, of the answer of a search, and of a log that is
//! accepted.
//!
//! Proved: each text is that of its definition; a report shows of each axis and height of a new point
//! the value that a halving over the verdicts of the plan leaves, and of each row of a chosen
//! candidate its redundancy likewise.
//!
//! Said by: `rows_text`, `report`, `checked_report`.
//!
//! Caller: `answer_rows` of `geoplan/src/rows.rt`.
#![tactic(auto)]

mod length_kind;
mod lengths;
mod numbers;
mod open_limit;
mod redundancies;
mod reported;
mod reports;
mod rows;
mod shown;

pub use length_kind::LengthKind;
pub use reports::{checked_report, put_bound, put_counts, put_price, report};
pub use rows::rows_text;
