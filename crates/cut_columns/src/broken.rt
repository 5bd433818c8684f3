/// A cut by its number, and what it lacks: the part of its bound, in fixed point with 32 fractional
/// bits, that shares don't reach.
#[derive(Clone, Copy)]
pub struct Broken {
    pub cut: u32,
    pub lacking: i64,
}
