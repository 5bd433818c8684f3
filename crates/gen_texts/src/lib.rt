//! The tables that are generated from a seed are accepted, and are read back as the seed's records.
//! Nothing runs.
//!
//! Proved: whatever the seed, neither table has a fault, and they stand for the nine points and the
//! 28 candidates of the seed: each text that is written is the field that is read.
//!
//! Said by: `generated_tables_are_read_back`.
#![tactic(auto)]

mod laws;

pub use laws::generated_tables_are_read_back;
