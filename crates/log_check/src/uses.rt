//! The rules of leaves that use cuts by their numbers.
ghost use Rattle.std.specs.Prelude.{◌≡◌, ℕ, true, length};
ghost use Rattle.std.specs.List.{list_all};
ghost use Rattle.bound_log.specs.Meanings.{AreNames, cut_named, is_named, named_meaning, meaning_rules};
ghost use Rattle.bound_log.specs.Rules.{first_unkept};
ghost use Rattle.bound_log.specs.declared.named_line.NamedLine.TheVariants as named_line;
ghost use Rattle.log_check.specs.LineRoom.{IsLineRoom};
ghost use Rattle.log_check.specs.Naming.{is_use_in_range};
ghost use Rattle.log_check.specs.Places.{HasEntries};
ghost use Rattle.log_check.specs.Weighing.{is_owned_at};

use crate::line_room::LineRoom;
use crate::named_cuts::NamedCuts;
use crate::rules::broken_by_moves;
use crate::shares::{MOST_SHARES, is_owned_at, is_weight};
use bound_log::{LogKind, Uses};
use geo_model::{Network, Node};

/// The first rule that a leaf breaks which uses a cut. It takes no memory.
pub fn broken_by_use(
    network: &Network,
    room: &mut LineRoom,
    node: &Node,
    cuts: &NamedCuts,
    number: u64,
) -> Option<LogKind>
    requires room { IsLineRoom network.now room.old }
    requires node { HasEntries (length network.now.candidates) node.now }
    requires names { AreNames network.now cuts.now }
    ensures rule { result ≡ first_unkept (meaning_rules network.now cuts.now node.now (named_meaning cuts.now (named_line.UseCut number))) }
    ensures kept { IsLineRoom network.now room.new }
{
    // The network's bounds, for the proof.
    let _bounds = network.limits();
    if number >= cuts.count() {
        return Some(LogKind::Range);
    }
    cuts.write(number, &mut room.moves);
    broken_by_moves(network, node, cuts.limit(number), &room.moves)
}

/// The first rule that a leaf of a dual bound breaks which uses cuts. It takes no memory.
pub fn broken_by_uses(
    network: &Network,
    node: &Node,
    cuts: &NamedCuts,
    divisor: u64,
    uses: &Uses<'_>,
) -> Option<LogKind>
    requires node { HasEntries (length network.now.candidates) node.now }
    requires names { AreNames network.now cuts.now }
    ensures { result ≡ first_unkept (meaning_rules network.now cuts.now node.now (named_meaning cuts.now (named_line.UseDual divisor uses.now))) }
{
    if !is_weight(divisor) {
        return Some(LogKind::Range);
    }
    if uses.count() > MOST_SHARES {
        return Some(LogKind::Range);
    }
    if !uses_in_range(cuts.count(), uses) {
        return Some(LogKind::Range);
    }
    if !uses_owned(network, node, cuts, uses) {
        return Some(LogKind::Owner);
    }
    None
}

// Whether the numbers of all uses of so many cuts are in their ranges.
fn uses_in_range(count: u64, uses: &Uses<'_>) -> bool
    ensures { result ≡ list_all (is_use_in_range count) uses.now }
{
    let mut left = uses.pairs();
    'uses: while let Some((multiplier, number)) = left.next() {
        if !is_weight(multiplier) || number >= count {
            return false;
        }
    }
    true
}

// Whether the limit of each cut that is used is in force for the inner plan of a node.
fn uses_owned(network: &Network, node: &Node, cuts: &NamedCuts, uses: &Uses<'_>) -> bool
    requires node { HasEntries (length network.now.candidates) node.now }
    requires named { list_all (λ one. is_named cuts.now one.1) uses.now ≡ true }
    ensures { result ≡ list_all (λ one. is_owned_at network.now node.now (cut_named cuts.now one.1).limit) uses.now }
{
    let mut left = uses.pairs();
    'uses: while let Some((_, number)) = left.next() {
        if !is_owned_at(network, node, u64::from(cuts.limit(number))) {
            return false;
        }
    }
    true
}
