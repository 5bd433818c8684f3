//! The verdict of a plan on a limit. A `ChainRoom` takes all memory before; a verdict takes none.
//!
//! Proved: the verdict of a plan on a limit is exactly the defined one, whatever the room was used
//! for before, and takes no memory, and so is the one on the limit with another value, and on the
//! redundancy of any row; Met holds for all displacements and for all larger plans, Refuted is broken
//! by one, Open has an interval with 0 in it; a certified plan meets the limits, and a plan within
//! one that is refuted on a limit doesn't meet that limit.
//!
//! Said by: `verdict`, clauses `exact`, `met`, `larger`, `refuted`, `interval`; `verdict_at`;
//! `redundancy_at`; `certified_plans_meet_limits`, `refuted_plans_fail`.
//!
//! Caller: `refutes` of `branch_bound/src/limit_verdicts.rt`.
#![tactic(auto)]

mod chain;
mod gaps;
mod grids;
mod judging;
mod laws;
mod meeting;
mod plan;
mod room;
mod row_squares;
mod run;

pub use chain::{Stop, step_row};
pub use gaps::slack_of_row;
pub use grids::{Grids, write_rows};
pub use judging::{redundancy_at, verdict, verdict_at};
pub use laws::{
    certified_plans_meet_limits, met_is_sound, open_intervals_contain_zero, refuted_is_sound,
    refuted_plans_fail,
};
pub use meeting::{is_in_force, is_met};
pub use plan::bring_to;
pub use room::ChainRoom;
