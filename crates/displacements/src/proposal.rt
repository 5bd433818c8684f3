ghost use Rattle.std.specs.Prelude.{◌≡◌, ◌<◌, Ok, None, length, IfOk, IfSome};
ghost use Rattle.pivot_chain.specs.Room.{IsRoomOf};
ghost use Rattle.displacements.specs.Proposals.{BreaksLimit, NoUnitBreaks};

use geo_base::NoMemory;
use geo_model::{Displacement, Network, Plan, breaks};
use pivot_chain::ChainRoom;
use std::alloc::Global;

/// A displacement that breaks a limit, by its number from 0, under a plan. None only where no
/// displacement by 1 in one unknown breaks it. Refused for want of memory alone; the room is for the
/// network, and its content afterwards is open.
pub fn propose(
    alloc: Global,
    room: &mut ChainRoom,
    network: &Network,
    plan: &Plan,
    limit: u32,
) -> Result<Option<Displacement>, NoMemory>
    requires room { IsRoomOf network.now room.old }
    requires plan { length plan.now ≡ length network.now.candidates }
    requires limit { limit < length network.now.limits }
    ensures breaking { IfOk result (λ found. IfSome found (BreaksLimit network.now plan.now limit)) }
    ensures none { result ≡ Ok None → NoUnitBreaks network.now plan.now limit }
    ensures kept { IsRoomOf network.now room.new }
{
    propose_unit(alloc, network, plan, limit)
}

// The first displacement by 1 in one unknown that breaks the limit.
fn propose_unit(
    alloc: Global,
    network: &Network,
    plan: &Plan,
    limit: u32,
) -> Result<Option<Displacement>, NoMemory>
    requires plan { length plan.now ≡ length network.now.candidates }
    requires limit { limit < length network.now.limits }
    ensures breaking { IfOk result (λ found. IfSome found (BreaksLimit network.now plan.now limit)) }
    ensures none { result ≡ Ok None → NoUnitBreaks network.now plan.now limit }
{
    let size = network.unknowns().len() as u32;
    let mut x = Displacement::new(alloc, size)?;
    for unknown in 0..size {
        x.set(unknown, 1);
        if breaks(network, plan, limit, &x) {
            return Ok(Some(x));
        }
        x.set(unknown, 0);
    }
    Ok(None)
}
