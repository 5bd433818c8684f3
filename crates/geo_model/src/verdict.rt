/// What is known of a plan and a limit. An open one names the step, from 1, at which the lower
/// chain stops, and the recomputed pivot interval, which contains 0.
#[derive(Clone, Copy, Debug, PartialEq, Eq)]
pub enum Verdict {
    /// The plan meets the limit.
    Met,
    /// Some displacement breaks the limit under the plan.
    Refuted,
    /// Neither is known.
    Open {
        /// The step, from 1, at which the lower chain stops.
        step: u32,
        /// The stop's value, at most 0, in units of the limit's grid.
        lo: i128,
        /// The upper chain's pivot at that step, at least 0, in units of the limit's grid.
        hi: i128,
    },
}
