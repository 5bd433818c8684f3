/// The two formats of a log. Their first lines tell them apart, and both spell the same trees.
#[derive(Clone, Copy, Debug, PartialEq, Eq)]
pub enum LogFormat {
    /// Each line that uses a cut spells it.
    First,
    /// A line of its own names a cut, and each line that uses it gives its number.
    Second,
}
