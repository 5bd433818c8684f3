//! The dual bound of a line of a log whose shares use cuts by their numbers.
ghost use Rattle.std.specs.Prelude.{◌≡◌, ℕ, ◌+◌, ◌*◌, ◌^◌, ◌<◌, ◌≤◌, pos, ◌-ℤ◌, All, get_or, length, map, sum_by, unsigned_abs};
ghost use Rattle.whole_algebra.specs.Matrices.{at};
ghost use Rattle.geo_model.specs.Dual.{dual_bound, reduced_price};
ghost use Rattle.geo_model.specs.Prices.{prices_of};
ghost use Rattle.bound_log.specs.DualText.{weighed_text};
ghost use Rattle.bound_log.specs.LogTree.{IsDualLineAt};
ghost use Rattle.bound_log.specs.Meanings.{AreNames, cut_named, share_used};
ghost use Rattle.reduced_sums.specs.Groups.{AreReduced};
ghost use Rattle.log_check.specs.LineRoom.{IsLineRoom};
ghost use Rattle.log_check.specs.Places.{HasEntries};

use crate::dual::weigh_moves;
use crate::line_room::LineRoom;
use crate::named_cuts::NamedCuts;
use bound_log::Uses;
use geo_model::{Network, Node};
use reduced_sums::{bound_of_sums, write_prices};

/// The dual bound of the cuts that a line uses which is allowed at a node. It takes no memory.
pub fn dual_bound_of_uses(
    network: &Network,
    room: &mut LineRoom,
    node: &Node,
    cuts: &NamedCuts,
    divisor: u64,
    uses: &Uses<'_>,
) -> u128
    requires room { IsLineRoom network.now room.old }
    requires node { HasEntries (length network.now.candidates) node.now }
    requires names { AreNames network.now cuts.now }
    requires named { All (λ one. one.1 < length cuts.now) uses.now }
    requires dual { IsDualLineAt network.now node.now divisor (map (share_used cuts.now) uses.now) }
    ensures value { result ≡ dual_bound (prices_of network.now) divisor (map (weighed_text network.now) (map (share_used cuts.now) uses.now)) node.now }
    ensures kept { IsLineRoom network.now room.new }
{
    let paid = weigh_uses(network, room, cuts, divisor, uses);
    bound_of_sums(network, node, divisor, room.reduced.as_slice(), paid)
}

// Writes the reduced prices that the uses of cuts leave, and answers the sum of their multipliers
// times the bounds of their cuts.
fn weigh_uses(
    network: &Network,
    room: &mut LineRoom,
    cuts: &NamedCuts,
    divisor: u64,
    uses: &Uses<'_>,
) -> u128
    requires room { IsLineRoom network.now room.old }
    requires names { AreNames network.now cuts.now }
    requires divisor { divisor ≤ 2 ^ 44 }
    requires few { length uses.now ≤ 64 }
    requires each { All (λ one. (one.0 ≤ 2 ^ 44) × (one.1 < length cuts.now)) uses.now }
    ensures paid { result ≡ sum_by (λ share. share.multiplier * share.cover.bound) (map (weighed_text network.now) (map (share_used cuts.now) uses.now)) }
    ensures paid_size { result ≤ 2 ^ 74 }
    ensures taken { (i : ℕ) → at room.new.reduced.items i ≡ reduced_price (prices_of network.now) divisor (map (weighed_text network.now) (map (share_used cuts.now) uses.now)) i }
    ensures small { AreReduced (length network.now.candidates) room.new.reduced.items }
    ensures kept { IsLineRoom network.now room.new }
{
    write_prices(network, room.reduced.as_mut_slice(), divisor);
    let mut left = uses.pairs();
    let mut paid = 0;
    'uses: while let Some((multiplier, number)) = left.next() {
        paid += weigh_use(network, room, cuts, multiplier, number);
    }
    paid
}

// Takes the use of a cut off the reduced prices, and answers its multiplier times the bound of the
// cut.
fn weigh_use(
    network: &Network,
    room: &mut LineRoom,
    cuts: &NamedCuts,
    multiplier: u64,
    number: u64,
) -> u128
    requires room { IsLineRoom network.now room.old }
    requires names { AreNames network.now cuts.now }
    requires multiplier { multiplier ≤ 2 ^ 44 }
    requires number { number < length cuts.now }
    requires small { (i : ℕ) → unsigned_abs (at room.old.reduced.items i) ≤ 2 ^ 75 }
    ensures paid { result ≡ multiplier * (weighed_text network.now (multiplier, cut_named cuts.now number)).cover.bound }
    ensures paid_size { result ≤ 2 ^ 68 }
    ensures taken { (i : ℕ) → at room.new.reduced.items i ≡ at room.old.reduced.items i -ℤ pos (multiplier * get_or (weighed_text network.now (multiplier, cut_named cuts.now number)).cover.coefficients i 0) }
    ensures near { (i : ℕ) → unsigned_abs (at room.new.reduced.items i) ≤ unsigned_abs (at room.old.reduced.items i) + 2 ^ 68 }
    ensures kept { IsLineRoom network.now room.new }
{
    // The network's bounds, for the proof.
    let _bounds = network.limits();
    cuts.write(number, &mut room.moves);
    weigh_moves(network, room, multiplier, cuts.limit(number))
}
