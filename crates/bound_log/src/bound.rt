/// The bound of a log on the plans that meet the limits, with prices in the unit of the candidates.
#[derive(Clone, Copy, Debug, PartialEq, Eq)]
pub enum Bound {
    /// No plan meets the limits.
    NoPlan,
    /// No plan that meets the limits costs less than this.
    AtLeast(u128),
}
