ghost use Rattle.std.specs.Prelude.{◌≡◌, ◌<◌, ◌≤◌, ℕ, ℤ, pos, ◌-ℤ◌, ◌≤ℤ◌, List, Bool, Some, length, slice_get};
ghost use Rattle.whole_algebra.specs.Chains.{chains_outcome as outcome_on};
ghost use Rattle.geo_model.specs.Row.{Displaced, RowOf};
ghost use Rattle.geo_model.specs.Candidate.{CandidateOf};
ghost use Rattle.geo_model.specs.Energy.{IsWithin};
ghost use Rattle.geo_model.specs.Limit.{LimitOf, IsLoad};
ghost use Rattle.geo_model.specs.Meeting.{MeetsLimit, Breaks};
ghost use Rattle.geo_model.specs.Values.{factor_at, with_value, row_limit, IsValueOf, BearsValue};
ghost use Rattle.geo_model.specs.declared.verdict.Verdict.TheVariants.{Met, Refuted, Open};
ghost use Rattle.pivot_chain.specs.Judging.{lower_of, upper_of, IsMade};
ghost use Rattle.pivot_chain.specs.Room.{IsRoomOf, IsChainsOf};
ghost use Rattle.pivot_chain.specs.Verdict.{verdict_from, verdict_of, verdict_on};

use crate::grids::Grids;
use crate::plan::{bring_to, take_nearer};
use crate::room::{ChainRoom, Chains};
use crate::row_squares::write_row;
use crate::run::{run_lower, run_upper};
use geo_model::{LimitKind, Network, Plan, Square, Verdict};
use lent_parts::Tri;
use std::slice::from_ref;

// A redundancy of 1, in thousandths.
const WHOLE: i64 = 1000;

/// The verdict of a plan on a limit of the network that the room is for. A limit that is Met is met
/// at all displacements, by each larger plan too; one that is Refuted is broken by some displacement;
/// an Open one names two numbers with 0 between them. It takes no memory, and what the room held
/// before plays no part.
pub fn verdict(room: &mut ChainRoom, network: &Network, plan: &Plan, limit: u32) -> Verdict
    requires room { IsRoomOf network.now room.old }
    requires plan { length plan.now ≡ length network.now.candidates }
    requires limit { limit < length network.now.limits }
    ensures exact { (l : LimitOf) → slice_get network.now.limits limit ≡ Some l → result ≡ verdict_of network.now plan.now l }
    ensures kept { IsRoomOf network.now room.new }
    ensures met { (l : LimitOf) → slice_get network.now.limits limit ≡ Some l → result ≡ Met → MeetsLimit network.now plan.now l }
    ensures refuted { (l : LimitOf) → slice_get network.now.limits limit ≡ Some l → result ≡ Refuted → (x : Displaced) × Breaks network.now plan.now l x }
    ensures interval { (step : ℕ) (lo hi : ℤ) → result ≡ Open step lo hi → (lo ≤ℤ pos 0) × (pos 0 ≤ℤ hi) }
    ensures larger { (l : LimitOf) (large : List Bool) → slice_get network.now.limits limit ≡ Some l → result ≡ Met → IsWithin plan.now large → MeetsLimit network.now large l }
{
    let form = &network.limits()[limit as usize];
    verdict_on(
        &mut room.chains,
        network,
        plan,
        form.alpha,
        form.squares.as_slice(),
    )
}

/// The verdict of a plan on a limit of the network with another value: an axis or a height in tenths
/// of a mm, from 1 to 1000, or a redundancy in thousandths, from 1 to 999. With the factor of this
/// value the limit keeps the bounds of the limits of a network, as each limit of two tables does. It
/// takes no memory, and what the room held before plays no part.
pub fn verdict_at(
    room: &mut ChainRoom,
    network: &Network,
    plan: &Plan,
    limit: u32,
    value: u32,
) -> Verdict
    requires room { IsRoomOf network.now room.old }
    requires plan { length plan.now ≡ length network.now.candidates }
    requires limit { limit < length network.now.limits }
    requires value { (l : LimitOf) → slice_get network.now.limits limit ≡ Some l → IsValueOf l.kind value }
    requires bounds { (l : LimitOf) → slice_get network.now.limits limit ≡ Some l → BearsValue network.now l value }
    ensures exact { (l : LimitOf) → slice_get network.now.limits limit ≡ Some l → result ≡ verdict_of network.now plan.now (with_value l value) }
    ensures kept { IsRoomOf network.now room.new }
    ensures met { (l : LimitOf) → slice_get network.now.limits limit ≡ Some l → result ≡ Met → MeetsLimit network.now plan.now (with_value l value) }
    ensures refuted { (l : LimitOf) → slice_get network.now.limits limit ≡ Some l → result ≡ Refuted → (x : Displaced) × Breaks network.now plan.now (with_value l value) x }
    ensures interval { (step : ℕ) (lo hi : ℤ) → result ≡ Open step lo hi → (lo ≤ℤ pos 0) × (pos 0 ≤ℤ hi) }
{
    let form = &network.limits()[limit as usize];
    let factor = factor_of(form.kind, form.alpha, value);
    verdict_on(
        &mut room.chains,
        network,
        plan,
        factor,
        form.squares.as_slice(),
    )
}

/// The verdict of a plan on the redundancy of a row of a candidate, in thousandths, from 1 to 999,
/// whether or not the network has a limit on it. It takes no memory, and what the room held before
/// plays no part.
pub fn redundancy_at(
    room: &mut ChainRoom,
    network: &Network,
    plan: &Plan,
    candidate: u32,
    row: u32,
    value: u32,
) -> Verdict
    requires room { IsRoomOf network.now room.old }
    requires plan { length plan.now ≡ length network.now.candidates }
    requires candidate { candidate < length network.now.candidates }
    requires row { (c : CandidateOf) → slice_get network.now.candidates candidate ≡ Some c → row < length c.rows }
    requires low { 1 ≤ value }
    requires high { value ≤ 999 }
    ensures exact { (c : CandidateOf) (r : RowOf) → slice_get network.now.candidates candidate ≡ Some c → slice_get c.rows row ≡ Some r → result ≡ verdict_of network.now plan.now (row_limit candidate row r value) }
    ensures kept { IsRoomOf network.now room.new }
    ensures met { (c : CandidateOf) (r : RowOf) → slice_get network.now.candidates candidate ≡ Some c → slice_get c.rows row ≡ Some r → result ≡ Met → MeetsLimit network.now plan.now (row_limit candidate row r value) }
    ensures refuted { (c : CandidateOf) (r : RowOf) → slice_get network.now.candidates candidate ≡ Some c → slice_get c.rows row ≡ Some r → result ≡ Refuted → (x : Displaced) × Breaks network.now plan.now (row_limit candidate row r value) x }
    ensures interval { (step : ℕ) (lo hi : ℤ) → result ≡ Open step lo hi → (lo ≤ℤ pos 0) × (pos 0 ≤ℤ hi) }
{
    let offered = &network.candidates()[candidate as usize];
    let observed = &offered.rows[row as usize];
    write_row(room.squares.as_mut_slice(), observed);
    let square = from_ref(&room.squares[observed.entries().len()]);
    let factor = redundancy_factor(value);
    verdict_on(&mut room.chains, network, plan, factor, square)
}

// The factor of a redundancy.
fn redundancy_factor(value: u32) -> i64
    requires { value ≤ 999 }
    ensures { result ≡ pos 1000 -ℤ pos value }
{
    WHOLE - value as i64
}

// The factor of a limit of this kind with a value.
fn factor_of(kind: LimitKind, factor: i64, value: u32) -> i64
    requires { IsValueOf kind value }
    ensures { result ≡ factor_at kind factor value }
{
    match kind {
        LimitKind::Axis(_) | LimitKind::Height(_) => value as i64 * value as i64,
        LimitKind::Redundancy(_, _) => redundancy_factor(value),
        LimitKind::Added(_) => factor,
    }
}

// The verdict of a plan on each limit that has this factor and these squares, which keep the bounds of
// the limits of a network.
fn verdict_on(
    chains: &mut Chains,
    network: &Network,
    plan: &Plan,
    factor: i64,
    squares: &[Square],
) -> Verdict
    requires chains { IsChainsOf network.now chains.old }
    requires plan { length plan.now ≡ length network.now.candidates }
    requires bounds { IsLoad (length network.now.unknowns) network.now.candidates factor squares.now }
    ensures exact { result ≡ verdict_on network.now plan.now factor squares.now }
    ensures kept { IsChainsOf network.now chains.new }
{
    take_nearer(&mut chains.normal, &mut chains.other, network, plan);
    bring_to(&mut chains.normal, network, plan);
    let diagonal = chains.diagonal.as_slice();
    chains.grid.retake_known(network, diagonal, factor, squares);
    let grids = Grids {
        network,
        normal: &chains.normal,
        grid: &chains.grid,
        alpha: factor,
        squares,
    };
    judge(
        &grids,
        &mut chains.lower,
        &mut chains.upper,
        &mut chains.rows,
        &mut chains.gaps,
    )
}

// The verdict that the chains of the two grid matrices give.
fn judge(
    grids: &Grids<'_>,
    lower: &mut Tri,
    upper: &mut Tri,
    rows: &mut Tri,
    gaps: &mut Tri,
) -> Verdict
    requires made { IsMade grids.now }
    requires lower_room { length lower.old ≡ length grids.now.network.now.unknowns }
    requires upper_room { length upper.old ≡ length grids.now.network.now.unknowns }
    requires rows_room { length rows.old ≡ length grids.now.network.now.unknowns }
    requires gaps_room { length gaps.old ≡ length grids.now.network.now.unknowns }
    ensures exact { result ≡ verdict_from (outcome_on (lower_of grids.now) (upper_of grids.now)) }
    ensures lower_size { length lower.new ≡ length lower.old }
    ensures upper_size { length upper.new ≡ length upper.old }
    ensures rows_size { length rows.new ≡ length rows.old }
    ensures gaps_size { length gaps.new ≡ length gaps.old }
{
    let Some(low) = run_lower(grids, lower, upper, rows, gaps) else {
        return Verdict::Met;
    };
    match run_upper(grids, low.step, lower, upper, rows, gaps) {
        Some(_high) => Verdict::Refuted,
        None => Verdict::Open {
            step: low.step,
            lo: low.value,
            hi: rows.row(low.step - 1)[0],
        },
    }
}
