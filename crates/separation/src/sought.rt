use scaled_network::{Marks, ScaledNetwork};

/// What is sought: displacements whose cuts shares of the candidates break.
#[derive(Clone, Copy)]
pub struct Sought<'a> {
    /// The network in fixed point.
    pub scaled: &'a ScaledNetwork,
    /// What a node says of each candidate: only limits in force there are looked at.
    pub marks: &'a Marks,
    /// The share of each candidate, in fixed point.
    pub shares: &'a [i64],
    /// What the shares lack of a cut at least, in parts of its bound, in fixed point.
    pub least: i64,
    /// How many displacements are sought at most.
    pub most: usize,
}
