use crate::cut_text::CutText;
use crate::uses::Uses;

/// A line of a log of format 2, lent from its text. Numbers are told as they stand in the line, in
/// their range or not; a cut is told by how many were named before it.
#[derive(Debug, Drop)]
pub enum NamedLine<'a> {
    /// A split on this candidate.
    Split(u64),
    /// A leaf whose bound is the price of what its node chooses.
    Cost,
    /// A leaf that this limit refutes.
    Pivot(u64),
    /// No node: this cut gets the next number, from 0 on.
    Named(CutText<'a>),
    /// A leaf whose node's upper plan breaks the cut of this number.
    UseCut(u64),
    /// A leaf whose bound is the dual bound of this divisor and these uses of cuts.
    UseDual(u64, Uses<'a>),
}
