/// A cut by its number, and its multiplier: how much of it a bound or a proof of infeasibility takes,
/// in prices (fixed point).
#[derive(Clone, Copy)]
pub struct CutMultiplier {
    pub cut: u32,
    pub multiplier: i64,
}
