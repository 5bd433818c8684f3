//! Generated networks are feasible: the plan of all candidates meets every limit, whatever the
//! seed. Nothing runs.
//!
//! Proved: whatever the seed, the generated tables and their network have no fault; with a
//! redundancy limit of 200 thousandths the network has 17 unknowns, 28 candidates with 48 rows and
//! 58 limits; and the plan of all candidates meets them: two vectors at each new point bear four
//! times what any other row has.
//!
//! Said by: `generated_tables_are_feasible`, `generated_networks_are_of_one_size`,
//! `generated_networks_are_feasible`.
#![tactic(auto)]

mod laws;

pub use laws::{
    generated_networks_are_feasible, generated_networks_are_of_one_size,
    generated_tables_are_feasible,
};
