//! What limits mean. Each function here has an empty body: what it ensures is a theorem.

ghost use Rattle.covariance_words.specs.Meaning.{AxesAreEigenvalues, AxisLimitsBoundEllipses, FreeMovementsLeaveLimitedPoints, HeightLimitsBoundVariances, LimitsMeanPrecision, MetLimitsHoldAndArePrecise, RedundancyLimitsBoundRedundancies};

/// The bound on a point's variance in each direction is one on both eigenvalues of its 2 by 2 block
/// of the covariance matrix.
pub fn axes_are_eigenvalues()
    ensures { AxesAreEigenvalues }
{}

/// A plan with a covariance matrix meets an axis limit exactly where the semi-major axis of the
/// point's standard ellipse is within it.
pub fn axis_limits_bound_ellipses()
    ensures { AxisLimitsBoundEllipses }
{}

/// A plan with a covariance matrix meets a height limit exactly where the standard deviation of the
/// point's height is within it.
pub fn height_limits_bound_variances()
    ensures { HeightLimitsBoundVariances }
{}

/// A plan with a covariance matrix meets a redundancy limit exactly where the redundancy number of
/// the row is at least that of the limit.
pub fn redundancy_limits_bound_redundancies()
    ensures { RedundancyLimitsBoundRedundancies }
{}

/// Where the normal matrix of a plan has no inverse, some displacement costs no energy: each point
/// with an axis or height limit that the plan meets stays where it is in it.
pub fn free_movements_leave_limited_points()
    ensures { FreeMovementsLeaveLimitedPoints }
{}

/// A plan with a covariance matrix meets all limits in force exactly where each new point's
/// standard ellipse, each new height and the redundancy of each chosen row are within them.
pub fn limits_mean_precision()
    ensures { LimitsMeanPrecision }
{}

/// A plan that meets the limits in force holds all new points, so that none moves where no energy is
/// spent, and is precise with its covariance matrix where it has one.
pub fn met_limits_hold_and_are_precise()
    ensures { MetLimitsHoldAndArePrecise }
{}
