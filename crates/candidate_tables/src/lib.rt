//! The candidates table against accepted points: its records by field, or its first fault.
//!
//! Proved: the candidates table against the points, the same; accepted candidates name points that
//! have the parts they need.
//!
//! Said by: `read_candidates`, clauses `answer`, `accepted`; `Candidates::find`,
//! `first_candidate_fault_is_least`.
//!
//! Caller: `judge` of `geoplan/src/load.rt`.
#![tactic(auto)]

mod candidates;
mod ends;
mod figures;
mod kind;
mod kind_rules;
mod laws;
mod line;
mod places;
mod read;
mod record;

pub use candidates::Candidates;
pub use kind::Kind;
pub use kind_rules::{KindRules, LineBounds};
pub use laws::{first_candidate_fault_is_least, words_name_kinds};
pub use read::read_candidates;
pub use record::CandidateRecord;
