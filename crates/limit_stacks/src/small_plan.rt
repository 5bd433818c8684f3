//! Plans within others that meet a limit: proposed in fixed point, judged by a verdict.
ghost use Rattle.std.specs.Prelude.{◌≡◌, ◌<◌, Some, length, slice_get, IfOk, IfSome};
ghost use Rattle.geo_model.specs.Limit.{LimitOf};
ghost use Rattle.geo_model.specs.Meeting.{MeetsLimit};
ghost use Rattle.pivot_chain.specs.Room.{IsRoomOf};
ghost use Rattle.limit_stacks.specs.Kept.{IsWitness};

use crate::witnesses::is_within;
use geo_base::NoMemory;
use geo_model::{Network, Plan, Verdict};
use pivot_chain::{ChainRoom, verdict};
use plan_moves::{Rest, WitnessFinder};
use std::alloc::Global;

/// A plan within another one that meets a limit, and so shows that the other one meets it, where the
/// one that is proposed does. Refused for want of memory alone.
pub(crate) fn small_plan(
    alloc: Global,
    room: &mut ChainRoom,
    finder: &mut WitnessFinder,
    network: &Network,
    plan: &Plan,
    limit: u32,
    rest: Rest,
) -> Result<Option<Plan>, NoMemory>
    requires room { IsRoomOf network.now room.old }
    requires plan { length plan.now ≡ length network.now.candidates }
    requires limit { limit < length network.now.limits }
    ensures found { IfOk result (λ found. IfSome found (IsWitness network.now limit)) }
    ensures met { IfOk result (λ found. IfSome found (λ small. (l : LimitOf) → slice_get network.now.limits limit ≡ Some l → MeetsLimit network.now plan.now l)) }
    ensures room { IsRoomOf network.now room.new }
{
    let Some(small) = finder.small_plan(alloc, network, plan, limit, rest)? else {
        return Ok(None);
    };
    let count = network.candidates().len() as u32;
    if is_within(&small, plan, count) && verdict(room, network, &small, limit) == Verdict::Met {
        return Ok(Some(small));
    }
    Ok(None)
}
