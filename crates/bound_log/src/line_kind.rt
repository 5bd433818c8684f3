/// The kind of a line of a log. Lines are counted by their kinds.
#[derive(Clone, Copy, Debug, PartialEq, Eq)]
pub enum LineKind {
    /// `s`: a split.
    Split,
    /// `c`: a leaf of the price of what is chosen.
    Cost,
    /// `p`: a leaf that a limit refutes.
    Pivot,
    /// `x`: a leaf whose cut is broken.
    Cut,
    /// `d`: a leaf of a dual bound.
    Dual,
}
