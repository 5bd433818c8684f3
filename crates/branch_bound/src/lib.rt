//! The search for the cheapest certified plan of a network. It appends a log of format 2 that proves
//! its answer to the name that a shelf has started.
//!
//! Proved: in any network, the answer of a search is what its log says: a certified plan whose
//! price is the log's bound; or that no plan is left; or an unsettled plan whose price is the
//! bound, where every certified plan costs more, with its first open limit. No split of the log is
//! idle, and no cut is named twice in it. After a fault the beginning of a log stands under its
//! name.
//!
//! Said by: `search`, clauses `searched`, `refused`.
//!
//! Caller: `solve` of `geoplan/src/solve.rt`.
#![tactic(auto)]

mod answer;
mod best;
mod branch;
mod choice;
mod cut_sums;
mod cuts;
mod inherited;
mod limit_verdicts;
mod line;
mod missing;
mod names;
mod node_judgements;
mod node_line;
mod run;
mod search_fault;

pub use geo_model::{Answer, SearchDone};
pub use run::search;
pub use search_fault::SearchFault;
