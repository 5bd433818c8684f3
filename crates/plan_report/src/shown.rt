//! The values that a report shows, found by halving.
ghost use Rattle.std.specs.Prelude.{◌≡◌, ◌<◌, ◌≤◌, Some, length, slice_get};
ghost use Rattle.geo_model.specs.Row.{RowOf};
ghost use Rattle.geo_model.specs.Candidate.{CandidateOf};
ghost use Rattle.geo_model.specs.Limit.{LimitOf};
ghost use Rattle.geo_model.specs.Values.{with_value, row_limit};
ghost use Rattle.pivot_chain.specs.Room.{IsRoomOf};
ghost use Rattle.pivot_chain.specs.Verdict.{verdict_of};
ghost use Rattle.plan_report.specs.Shown.{is_met, shown_length, shown_share, TakesLengths};

use geo_model::{Network, Plan, Verdict};
use pivot_chain::{ChainRoom, redundancy_at, verdict_at};

// The greatest redundancy, in thousandths, which no row has.
const WHOLE: u32 = 1000;

// Whether a verdict is Met.
fn is_met(verdict: Verdict) -> bool
    ensures { result ≡ is_met verdict }
{
    match verdict {
        Verdict::Met => true,
        Verdict::Refuted | Verdict::Open { .. } => false,
    }
}

// The least value of an axis or a height limit, by halving, that the plan is known to meet.
pub(crate) fn shown_length(
    room: &mut ChainRoom,
    network: &Network,
    plan: &Plan,
    limit: u32,
    value: u32,
) -> u32
    requires room { IsRoomOf network.now room.old }
    requires plan { length plan.now ≡ length network.now.candidates }
    requires limit { limit < length network.now.limits }
    requires value { value ≤ 1000 }
    requires takes { (l : LimitOf) → slice_get network.now.limits limit ≡ Some l → TakesLengths network.now l }
    ensures shown { (l : LimitOf) → slice_get network.now.limits limit ≡ Some l → result ≡ shown_length (λ v. verdict_of network.now plan.now (with_value l v)) value }
    ensures kept { IsRoomOf network.now room.new }
{
    let mut low = 0;
    let mut high = value;
    'halving: while low + 1 < high {
        let middle = (low + high) / 2;
        if is_met(verdict_at(room, network, plan, limit, middle)) {
            high = middle;
        } else {
            low = middle;
        }
    }
    high
}

// The greatest redundancy of a row, by halving, that the plan is known to have, from a least one on.
pub(crate) fn shown_redundancy(
    room: &mut ChainRoom,
    network: &Network,
    plan: &Plan,
    candidate: u32,
    row: u32,
    least: u32,
) -> u32
    requires room { IsRoomOf network.now room.old }
    requires plan { length plan.now ≡ length network.now.candidates }
    requires candidate { candidate < length network.now.candidates }
    requires row { (c : CandidateOf) → slice_get network.now.candidates candidate ≡ Some c → row < length c.rows }
    requires least { least ≤ 999 }
    ensures shown { (c : CandidateOf) (r : RowOf) → slice_get network.now.candidates candidate ≡ Some c → slice_get c.rows row ≡ Some r → result ≡ shown_share (λ v. verdict_of network.now plan.now (row_limit candidate row r v)) least }
    ensures kept { IsRoomOf network.now room.new }
{
    let mut low = least;
    let mut high = WHOLE;
    'halving: while low + 1 < high {
        let middle = (low + high) / 2;
        if is_met(redundancy_at(room, network, plan, candidate, row, middle)) {
            low = middle;
        } else {
            high = middle;
        }
    }
    low
}
