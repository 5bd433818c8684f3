//! Which limit it is, as the lines of a report and of a session say it.
//!
//! Proved: what is appended is the text of the limit: the axis or the height of a point, a row of a
//! candidate, counted from 1, or the number of a limit that was added.
//!
//! Said by: `put_limit_name`.
#![tactic(auto)]

mod limit_name;

pub use limit_name::{put_count, put_limit_name};
