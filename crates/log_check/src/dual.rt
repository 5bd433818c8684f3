//! The dual bound of a line of a log, formed from the lent line in room that stands.
ghost use Rattle.std.specs.Prelude.{◌≡◌, ℕ, ◌+◌, ◌*◌, ◌^◌, ◌<◌, ◌≤◌, pos, ◌-ℤ◌, All, get_or, length, map, sum_by, unsigned_abs};
ghost use Rattle.whole_algebra.specs.Matrices.{at};
ghost use Rattle.geo_model.specs.Dual.{dual_bound, reduced_price};
ghost use Rattle.geo_model.specs.Prices.{prices_of};
ghost use Rattle.bound_log.specs.CutText.{CutTextOf, displaced_by};
ghost use Rattle.bound_log.specs.DualText.{weighed_text};
ghost use Rattle.bound_log.specs.LogTree.{IsDualLineAt};
ghost use Rattle.reduced_sums.specs.Groups.{AreReduced};
ghost use Rattle.log_check.specs.LineRoom.{IsLineRoom};
ghost use Rattle.log_check.specs.Places.{HasEntries};
ghost use Rattle.log_check.specs.Weighing.{IsShareOf};

use crate::line_room::LineRoom;
use crate::moves::write_moves;
use bound_log::{CutText, Shares};
use cut_pool::cut_into;
use geo_model::{Network, Node};
use reduced_sums::{bound_of_sums, take_off, write_prices};

// Takes a share off the reduced prices, and answers its multiplier times the bound of its cut.
fn weigh_share(network: &Network, room: &mut LineRoom, multiplier: u64, cut: &CutText<'_>) -> u128
    requires room { IsLineRoom network.now room.old }
    requires share { IsShareOf network.now (multiplier, cut.now) }
    requires small { (i : ℕ) → unsigned_abs (at room.old.reduced.items i) ≤ 2 ^ 75 }
    ensures paid { result ≡ multiplier * (weighed_text network.now (multiplier, cut.now)).cover.bound }
    ensures paid_size { result ≤ 2 ^ 68 }
    ensures taken { (i : ℕ) → at room.new.reduced.items i ≡ at room.old.reduced.items i -ℤ pos (multiplier * get_or (weighed_text network.now (multiplier, cut.now)).cover.coefficients i 0) }
    ensures near { (i : ℕ) → unsigned_abs (at room.new.reduced.items i) ≤ unsigned_abs (at room.old.reduced.items i) + 2 ^ 68 }
    ensures kept { IsLineRoom network.now room.new }
{
    // The network's bounds, for the proof.
    let _bounds = network.limits();
    // The pairs are a displacement: their ranges were looked at.
    let _written = write_moves(&mut room.moves, cut);
    weigh_moves(network, room, multiplier, cut.limit() as u32)
}

/// Takes a share off the reduced prices, whose cut is that of a limit and of the displacement that
/// is written, and answers its multiplier times the bound of the cut. It takes no memory.
pub fn weigh_moves(network: &Network, room: &mut LineRoom, multiplier: u64, limit: u32) -> u128
    requires room { IsLineRoom network.now room.old }
    requires multiplier { multiplier ≤ 2 ^ 44 }
    requires limit { limit < length network.now.limits }
    requires small { (i : ℕ) → unsigned_abs (at room.old.reduced.items i) ≤ 2 ^ 75 }
    ensures paid { (cut : CutTextOf) → cut.limit ≡ limit → ((i : ℕ) → displaced_by cut.pairs i ≡ at room.old.moves i)
        → result ≡ multiplier * (weighed_text network.now (multiplier, cut)).cover.bound }
    ensures paid_size { result ≤ 2 ^ 68 }
    ensures taken { (cut : CutTextOf) → cut.limit ≡ limit → ((i : ℕ) → displaced_by cut.pairs i ≡ at room.old.moves i)
        → (i : ℕ) → at room.new.reduced.items i ≡ at room.old.reduced.items i -ℤ pos (multiplier * get_or (weighed_text network.now (multiplier, cut)).cover.coefficients i 0) }
    ensures near { (i : ℕ) → unsigned_abs (at room.new.reduced.items i) ≤ unsigned_abs (at room.old.reduced.items i) + 2 ^ 68 }
    ensures kept { IsLineRoom network.now room.new }
{
    // The network's bounds, for the proof.
    let _bounds = network.limits();
    let coefficients = room.coefficients.as_mut_slice();
    let bound = cut_into(network, limit, &room.moves, coefficients);
    take_off(
        room.reduced.as_mut_slice(),
        room.coefficients.as_slice(),
        multiplier,
    );
    u128::from(multiplier) * u128::from(bound)
}

// Writes the reduced prices that shares leave, and answers the sum of their multipliers times the
// bounds of their cuts.
fn weigh(network: &Network, room: &mut LineRoom, divisor: u64, shares: &Shares<'_>) -> u128
    requires room { IsLineRoom network.now room.old }
    requires divisor { divisor ≤ 2 ^ 44 }
    requires few { length shares.now ≤ 64 }
    requires each { All (IsShareOf network.now) shares.now }
    ensures paid { result ≡ sum_by (λ share. share.multiplier * share.cover.bound) (map (weighed_text network.now) shares.now) }
    ensures paid_size { result ≤ 2 ^ 74 }
    ensures taken { (i : ℕ) → at room.new.reduced.items i ≡ reduced_price (prices_of network.now) divisor (map (weighed_text network.now) shares.now) i }
    ensures small { AreReduced (length network.now.candidates) room.new.reduced.items }
    ensures kept { IsLineRoom network.now room.new }
{
    write_prices(network, room.reduced.as_mut_slice(), divisor);
    let mut left = shares.shares();
    let mut paid = 0;
    'shares: while let Some((multiplier, cut)) = left.next() {
        paid += weigh_share(network, room, multiplier, &cut);
    }
    paid
}

/// The dual bound of the shares of a line that is allowed at a node. It takes no memory.
pub fn dual_bound_at(
    network: &Network,
    room: &mut LineRoom,
    node: &Node,
    divisor: u64,
    shares: &Shares<'_>,
) -> u128
    requires room { IsLineRoom network.now room.old }
    requires node { HasEntries (length network.now.candidates) node.now }
    requires dual { IsDualLineAt network.now node.now divisor shares.now }
    ensures value { result ≡ dual_bound (prices_of network.now) divisor (map (weighed_text network.now) shares.now) node.now }
    ensures kept { IsLineRoom network.now room.new }
{
    let paid = weigh(network, room, divisor, shares);
    bound_of_sums(network, node, divisor, room.reduced.as_slice(), paid)
}
