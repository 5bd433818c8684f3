//! A log of either format as one of format 2, in which each cut is named once, right before the first
//! line that uses it. It stands on nothing of the search.
//!
//! Proved: what a log comes to is a log of format 2 of the same tree, so that its bound and the
//! counts of its lines are the same; a log of format 2 is copied; in one of format 1 each cut that
//! a line uses is named, none is named twice, and none is named that no line uses; a log is refused
//! exactly where more than 65536 cuts would have to be named, but for want of memory.
//!
//! Said by: `migrate`, clauses `migrated`, `cause`; `cuts_are_named_once`,
//! `numbers_stand_for_their_cuts`.
//!
//! Caller: `write_new_log` of `geoplan/src/migrate.rt`.
#![tactic(auto)]

mod answer;
mod laws;
mod migrating;
mod names;
mod new_log;
mod writing;

pub use answer::MigrateAnswer;
pub use laws::{cuts_are_named_once, numbers_stand_for_their_cuts};
pub use migrating::migrate;
