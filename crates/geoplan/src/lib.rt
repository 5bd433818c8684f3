//! The top call: the words of a command line, a shelf and a sink; it answers the exit status.
//! docs/DESIGN.md says in which order its contract is read.
//!
//! Caller: `main` of `geoplan_cli/src/main.rt`.
#![tactic(auto)]

mod answer;
mod check;
mod command;
mod file_kind;
mod generate;
mod judge_fault;
mod laws;
mod load;
mod log_parts;
mod migrate;
mod outcome;
mod plan;
mod refusal;
mod refusal_text;
mod refused_table;
mod rows;
mod run;
mod script;
mod seed_search;
mod shape;
mod solve;
mod sources;
mod status;
mod table_bytes;
mod tables;
mod top;
mod verb;
mod words;

pub use laws::{sure_calls_do_not_fail, what_plan_writes_check_accepts};
pub use top::geoplan;
pub use words::Words;
