//! What the limits of a network of two tables mean in the words of an office: standard ellipses,
//! standard deviations of heights and redundancy numbers, from the covariance matrix of a plan. All
//! here is proved of the definitions in `specs/`; nothing runs.
#![tactic(auto)]

mod laws;

pub use laws::{
    axes_are_eigenvalues, axis_limits_bound_ellipses, free_movements_leave_limited_points,
    height_limits_bound_variances, limits_mean_precision, met_limits_hold_and_are_precise,
    redundancy_limits_bound_redundancies,
};
