/// What a node inherits: what its parent found out that holds at the node too, so that no verdict is
/// asked for again.
#[derive(Clone, Copy, Debug, PartialEq, Eq)]
pub struct Inherited {
    /// The candidate that owns each limit that refutes the node: the one that was chosen last.
    pub chosen: Option<u32>,
    /// Whether no limit shuts an open candidate out of the node.
    pub none_shut: bool,
    /// A limit in force that the inner plan isn't met on.
    pub unmet: Option<u32>,
}
