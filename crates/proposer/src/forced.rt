/// A candidate that each plan of a node which meets the limits and costs less than a price chooses
/// (`is_in`), or that none of them does. So the child of a split on it that does otherwise ends.
#[derive(Clone, Copy, Debug, PartialEq, Eq)]
pub struct Forced {
    pub candidate: u32,
    pub is_in: bool,
}
