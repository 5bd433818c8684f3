//! Networks, plans, limits, energy and price. Contracts see a `Plan` as a list of truth values and
//! a `Network` as a record of lists, which keeps its bounds.
//!
//! Proved: a network keeps its bounds; a larger plan keeps each limit that is met, and costs at
//! least as much; no sum over a network leaves 128 bits at displacements of up to 2^15; energy,
//! load and what breaks a limit at such a displacement are exact.
//!
//! Said by: `Network::new`, `larger_plans_keep_limits`, `larger_plans_cost_more`,
//! `sums_stay_within_128_bits`; `energy`, `load`, `breaks`.
//!
//! Caller: `is_cheaper` of `branch_bound/src/node_judgements.rt`.
#![tactic(auto)]

mod answer;
mod candidate;
mod displacement;
mod forms;
mod laws;
mod limit;
mod network;
mod plan;
mod price;
mod row;
mod station_prices;
mod verdict;

pub use answer::{Answer, Counts, SearchDone};
pub use candidate::Candidate;
pub use displacement::Displacement;
pub use forms::{breaks, candidate_energy, energy, load};
pub use laws::{
    larger_plans_cost_more, larger_plans_keep_limits, plans_cost_the_dual_bound,
    sums_stay_within_128_bits,
};
pub use limit::{Limit, LimitKind, Square};
pub use network::{Component, Network, Unknown};
pub use plan::{Node, Plan};
pub use price::{cost, uses_station};
pub use row::Row;
pub use verdict::Verdict;
