/// What a dual bound is made of: the shares that are known at a node from those above it, or its linear
/// program.
#[derive(Clone, Copy, Debug, PartialEq, Eq)]
pub enum BoundBy {
    KnownShares,
    Program,
}
