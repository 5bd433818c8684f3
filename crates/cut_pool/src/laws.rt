//! Laws of cuts. Each function is its contract: it does nothing.
ghost use Rattle.std.specs.Prelude.{ℕ, ◌<◌, ◌^◌};
ghost use Rattle.cut_pool.specs.Cut.{IsShift, cut_shift, MeetingPlansSatisfyCuts};

/// In each plan that meets a limit the chosen coefficients of each of the limit's cuts sum to at
/// least the cut's bound.
pub fn meeting_plans_satisfy_cuts()
    ensures { MeetingPlansSatisfyCuts }
{}

/// The power of two by which a cut is divided is the least one with a bound below 2^24.
pub fn shifts_are_least()
    ensures { (n : ℕ) → n < 2 ^ 120 → IsShift n (cut_shift n) }
{}
