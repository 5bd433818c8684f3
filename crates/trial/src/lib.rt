//! A session of trials: observations are taken and dropped, and a plan is shown with the verdicts of
//! its limits.
//!
//! Proved: the text is that of its definition, which keeps whole plans, and whose verdicts are those
//! from nothing; an undo leaves the session as it was before the latest change.
//!
//! Said by: `run`; `undo_takes_changes_back`.
#![tactic(auto)]

mod answer;
mod command;
mod laws;
mod script;
mod session;
mod shown;
mod stacks;
mod survey;

pub use laws::undo_takes_changes_back;
pub use script::run;
