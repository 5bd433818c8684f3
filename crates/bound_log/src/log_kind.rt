/// What the first fault of a text is. The kinds of a line's fault stand in the order in which they
/// are looked for.
#[derive(Clone, Copy, Debug, PartialEq, Eq)]
pub enum LogKind {
    /// A line after the whole tree.
    Extra,
    /// A line outside the grammar, or without its LF; the first line is another than a log's.
    Form,
    /// The number of a candidate, of a limit or of a displacement is out of its range.
    Range,
    /// A split on a candidate that its node has chosen or left out already.
    NotOpen,
    /// A limit that isn't in force: its owner isn't chosen at the node.
    Owner,
    /// A limit that doesn't refute its node.
    NotRefuted,
    /// A displacement that doesn't break its limit.
    CutHolds,
    /// The text ends before the tree does.
    Short,
}
