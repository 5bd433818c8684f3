//! Weak directions, which propose cuts: the displacement that a limit bears worst under shares of
//! the candidates, by a factor of their normal matrix, whose unknowns are scaled so that all
//! candidates together have a unit diagonal. Everything is fixed point with 32 fractional bits.
//!
//! Proved: no call goes wrong, whatever it is given: no index out of range, no overflow, no zero
//! divisor.
//!
//! Said by: safety alone; its numbers are proposals, which `kernel_tests` compares with exact
//! fractions on small cases.
#![tactic(auto)]

mod eigen;
mod factor;
mod form;
mod scaling;
mod weakest;

pub use eigen::{Greatest, greatest_eigenvalue, greatest_value, has_value_above};
pub use factor::Factor;
pub use form::{Form, FormTerm, common_shift, lifted};
pub use scaling::Scaling;
pub use weakest::Weakest;
