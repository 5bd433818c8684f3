//! A bounded dual simplex that proposes bounds to the search: the least price of shares of
//! candidates, from 0 to 1 each, under cuts in the form that the coefficients times the shares sum
//! to at least 1. Links hold the share of a candidate below another, as that of its station. It
//! starts warm from the tableau of a node above. Everything is fixed point with 32 fractional bits.
//!
//! Proved: no call goes wrong, whatever it is given: no index out of range, no overflow, and each
//! ends.
//!
//! Said by: safety alone; its numbers are proposals, which `kernel_tests` compares with exact
//! fractions on small cases.
#![tactic(auto)]

mod answers;
mod cuts;
mod entering;
mod leaving;
mod pivot;
mod run;
mod share;
mod table;
mod tableau;
mod variable;

pub use run::RunEnd;
pub use share::CutMultiplier;
pub use tableau::Tableau;
