//! Decimals with a fixed number of places, both ways, and numbers of digits alone. A text outside
//! the grammar is `None`.
//!
//! Proved: a decimal is read to its value, exactly where it is one; what is written reads back;
//! numbers of digits alone.
//!
//! Said by: `read_decimal`, clauses `value`, `none`; `decimals_are_the_grammar`,
//! `written_decimals_are_read`; `put_decimal`, `put_whole`, `read_digits`.
//!
//! Caller: `read` of `table_columns/src/number.rt`.
#![tactic(auto)]

mod laws;
mod numeral;
mod power;
mod put;
mod read;
mod whole;

pub use laws::{decimals_are_the_grammar, whole_texts_are_apart, written_decimals_are_read};
pub use numeral::read_digits;
pub use put::put_decimal;
pub use read::read_decimal;
pub use whole::put_whole;
