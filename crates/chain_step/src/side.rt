/// Which of the two chains of a matrix is meant: the one that is rounded from below, or the one from
/// above.
#[derive(Clone, Copy, Debug, PartialEq, Eq)]
pub enum Side {
    Lower,
    Upper,
}
