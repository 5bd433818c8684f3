//! Whether the shares of a dual bound are allowed at a node.
ghost use Rattle.std.specs.Prelude.{◌≡◌, length};
ghost use Rattle.std.specs.List.{list_all};
ghost use Rattle.bound_log.specs.Rules.{is_in_range, is_owned, is_weight};
ghost use Rattle.bound_log.specs.declared.log_leaf.LogLeaf.TheVariants as log_leaf;
ghost use Rattle.bound_log.specs.declared.log_line.LogLine.TheVariants as log_line;
ghost use Rattle.log_check.specs.LineRoom.{IsLineRoom};
ghost use Rattle.log_check.specs.Places.{HasEntries};
ghost use Rattle.log_check.specs.Weighing.{is_owned_at, is_share_in_range};

use crate::line_room::LineRoom;
use crate::moves::write_moves;
use bound_log::{CutText, Shares};
use geo_model::{Network, Node};

/// The most that a divisor or a multiplier of a line may be.
const MOST_WEIGHT: u64 = 17_592_186_044_416;

/// The most shares of a line.
pub const MOST_SHARES: u64 = 64;

/// Whether a divisor or a multiplier is in its range.
pub fn is_weight(weight: u64) -> bool
    ensures { result ≡ is_weight weight }
{
    weight >= 1 && weight <= MOST_WEIGHT
}

// Whether the numbers of a share are in their ranges.
fn share_in_range(
    network: &Network,
    room: &mut LineRoom,
    multiplier: u64,
    cut: &CutText<'_>,
) -> bool
    requires { IsLineRoom network.now room.old }
    ensures are { result ≡ is_share_in_range network.now (multiplier, cut.now) }
    ensures kept { IsLineRoom network.now room.new }
{
    let limits = network.limits();
    if !is_weight(multiplier) {
        return false;
    }
    if cut.limit() >= limits.len() as u64 {
        return false;
    }
    write_moves(&mut room.moves, cut)
}

// Whether the numbers of all shares are in their ranges.
fn shares_in_range(network: &Network, room: &mut LineRoom, shares: &Shares<'_>) -> bool
    requires { IsLineRoom network.now room.old }
    ensures are { result ≡ list_all (is_share_in_range network.now) shares.now }
    ensures kept { IsLineRoom network.now room.new }
{
    let mut left = shares.shares();
    'shares: while let Some((multiplier, cut)) = left.next() {
        if !share_in_range(network, room, multiplier, &cut) {
            return false;
        }
    }
    true
}

/// Whether the numbers of a dual bound are in their ranges. It takes no memory.
pub fn dual_in_range(
    network: &Network,
    room: &mut LineRoom,
    divisor: u64,
    shares: &Shares<'_>,
) -> bool
    requires { IsLineRoom network.now room.old }
    ensures are { result ≡ is_in_range network.now (log_line.Leaf (log_leaf.Dual divisor shares.now)) }
    ensures kept { IsLineRoom network.now room.new }
{
    if !is_weight(divisor) {
        return false;
    }
    if shares.count() > MOST_SHARES {
        return false;
    }
    shares_in_range(network, room, shares)
}

/// Whether the limit of a number is in force for the inner plan of a node.
pub fn is_owned_at(network: &Network, node: &Node, number: u64) -> bool
    requires { HasEntries (length network.now.candidates) node.now }
    ensures { result ≡ is_owned_at network.now node.now number }
{
    match network.limits().get(number as usize) {
        Some(limit) => limit.is_in_force(&node.inside),
        None => false,
    }
}

/// Whether the limit of each share is in force for the inner plan of a node.
pub fn shares_owned(network: &Network, node: &Node, divisor: u64, shares: &Shares<'_>) -> bool
    requires { HasEntries (length network.now.candidates) node.now }
    ensures { result ≡ is_owned network.now node.now (log_line.Leaf (log_leaf.Dual divisor shares.now)) }
{
    let mut left = shares.shares();
    'shares: while let Some((_, cut)) = left.next() {
        if !is_owned_at(network, node, cut.limit()) {
            return false;
        }
    }
    true
}
