/// A cut's part in a dual bound: its multiplier, and its number from 0 in a pool.
#[derive(Clone, Copy, Debug, PartialEq, Eq)]
pub struct Share {
    /// The multiplier, from 1 to 2^44 in a log.
    pub y: u64,
    /// The number of the cut, from 0.
    pub cut: u32,
}
