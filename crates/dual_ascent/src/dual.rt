use cut_pool::Share;

/// Multipliers for some cuts of a pool, over one divisor.
#[derive(Debug, Drop)]
pub struct Dual {
    /// The divisor, from 1 to 2^44.
    pub d: u64,
    /// The shares: at most 64.
    pub shares: Vec<Share>,
}
