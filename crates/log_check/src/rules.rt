//! Whether a line is allowed at a node.
ghost use Rattle.std.specs.Prelude.{◌≡◌, ◌<◌, ℕ, true, length};
ghost use Rattle.whole_algebra.specs.Matrices.{at};
ghost use Rattle.bound_log.specs.CutText.{CutTextOf, displaced_by};
ghost use Rattle.bound_log.specs.Rules.{first_unkept, is_displacement, line_rules};
ghost use Rattle.bound_log.specs.declared.log_leaf.LogLeaf.TheVariants as log_leaf;
ghost use Rattle.bound_log.specs.declared.log_line.LogLine.TheVariants as log_line;
ghost use Rattle.log_check.specs.LineRoom.{IsLineRoom};
ghost use Rattle.log_check.specs.Places.{HasEntries};

use crate::line_room::LineRoom;
use crate::moves::write_moves;
use crate::shares::{dual_in_range, shares_owned};
use bound_log::{CutText, LogKind, LogLeaf, LogLine, Shares};
use geo_model::{Displacement, Network, Node, Verdict, breaks};
use pivot_chain::verdict;

/// The first rule that a line breaks at a node; `None` where it is allowed there. It takes no
/// memory.
pub fn broken_rule(
    network: &Network,
    room: &mut LineRoom,
    node: &Node,
    line: &LogLine<'_>,
) -> Option<LogKind>
    requires room { IsLineRoom network.now room.old }
    requires node { HasEntries (length network.now.candidates) node.now }
    ensures rule { result ≡ first_unkept (line_rules network.now node.now line.now) }
    ensures kept { IsLineRoom network.now room.new }
{
    match line {
        LogLine::Split(candidate) => broken_by_split(network, node, *candidate),
        LogLine::Leaf(leaf) => broken_by_leaf(network, room, node, leaf),
    }
}

// The first rule that a leaf breaks.
fn broken_by_leaf(
    network: &Network,
    room: &mut LineRoom,
    node: &Node,
    leaf: &LogLeaf<'_>,
) -> Option<LogKind>
    requires room { IsLineRoom network.now room.old }
    requires node { HasEntries (length network.now.candidates) node.now }
    ensures rule { result ≡ first_unkept (line_rules network.now node.now (log_line.Leaf leaf.now)) }
    ensures kept { IsLineRoom network.now room.new }
{
    match leaf {
        LogLeaf::Cost => None,
        LogLeaf::Pivot(limit) => broken_by_pivot(network, room, node, *limit),
        LogLeaf::Cut(cut) => broken_by_cut(network, room, node, cut),
        LogLeaf::Dual(divisor, shares) => broken_by_dual(network, room, node, *divisor, shares),
    }
}

// The first rule that a split breaks.
fn broken_by_split(network: &Network, node: &Node, candidate: u64) -> Option<LogKind>
    requires { HasEntries (length network.now.candidates) node.now }
    ensures { result ≡ first_unkept (line_rules network.now node.now (log_line.Split candidate)) }
{
    let candidates = network.candidates();
    if candidate >= candidates.len() as u64 {
        return Some(LogKind::Range);
    }
    let place = candidate as u32;
    if !node.upper.has(place) {
        return Some(LogKind::NotOpen);
    }
    if node.inside.has(place) {
        return Some(LogKind::NotOpen);
    }
    None
}

// The first rule that a leaf which names a limit breaks.
fn broken_by_pivot(
    network: &Network,
    room: &mut LineRoom,
    node: &Node,
    number: u64,
) -> Option<LogKind>
    requires room { IsLineRoom network.now room.old }
    requires node { HasEntries (length network.now.candidates) node.now }
    ensures rule { result ≡ first_unkept (line_rules network.now node.now (log_line.Leaf (log_leaf.Pivot number))) }
    ensures kept { IsLineRoom network.now room.new }
{
    let limits = network.limits();
    if number >= limits.len() as u64 {
        return Some(LogKind::Range);
    }
    let limit = &limits[number as usize];
    if !limit.is_in_force(&node.inside) {
        return Some(LogKind::Owner);
    }
    if verdict(&mut room.chains, network, &node.upper, number as u32) != Verdict::Refuted {
        return Some(LogKind::NotRefuted);
    }
    None
}

// The first rule that a leaf which names a displacement breaks.
fn broken_by_cut(
    network: &Network,
    room: &mut LineRoom,
    node: &Node,
    cut: &CutText<'_>,
) -> Option<LogKind>
    requires room { IsLineRoom network.now room.old }
    requires node { HasEntries (length network.now.candidates) node.now }
    ensures rule { result ≡ first_unkept (line_rules network.now node.now (log_line.Leaf (log_leaf.Cut cut.now))) }
    ensures kept { IsLineRoom network.now room.new }
{
    let limits = network.limits();
    let number = cut.limit();
    if number >= limits.len() as u64 {
        return Some(LogKind::Range);
    }
    if !write_moves(&mut room.moves, cut) {
        return Some(LogKind::Range);
    }
    broken_by_moves(network, node, number as u32, &room.moves)
}

/// The first rule after those of its numbers that a leaf breaks whose displacement has these
/// entries. It takes no memory.
pub fn broken_by_moves(
    network: &Network,
    node: &Node,
    number: u32,
    moves: &Displacement,
) -> Option<LogKind>
    requires node { HasEntries (length network.now.candidates) node.now }
    requires limit { number < length network.now.limits }
    requires moves { length moves.now ≡ length network.now.unknowns }
    ensures { (cut : CutTextOf) → cut.limit ≡ number → is_displacement (length network.now.unknowns) cut.pairs ≡ true
        → ((i : ℕ) → displaced_by cut.pairs i ≡ at moves.now i)
        → result ≡ first_unkept (line_rules network.now node.now (log_line.Leaf (log_leaf.Cut cut))) }
{
    let limits = network.limits();
    let broken = &limits[number as usize];
    if !broken.is_in_force(&node.inside) {
        return Some(LogKind::Owner);
    }
    if !breaks(network, &node.upper, number, moves) {
        return Some(LogKind::CutHolds);
    }
    None
}

// The first rule that a leaf of a dual bound breaks.
fn broken_by_dual(
    network: &Network,
    room: &mut LineRoom,
    node: &Node,
    divisor: u64,
    shares: &Shares<'_>,
) -> Option<LogKind>
    requires room { IsLineRoom network.now room.old }
    requires node { HasEntries (length network.now.candidates) node.now }
    ensures rule { result ≡ first_unkept (line_rules network.now node.now (log_line.Leaf (log_leaf.Dual divisor shares.now))) }
    ensures kept { IsLineRoom network.now room.new }
{
    if !dual_in_range(network, room, divisor, shares) {
        return Some(LogKind::Range);
    }
    if !shares_owned(network, node, divisor, shares) {
        return Some(LogKind::Owner);
    }
    None
}
