ghost use Rattle.std.specs.Prelude.{◌≡◌, ◌<◌, true, false, slice_set, length, All, IfSome, IfNone};
ghost use Rattle.pivot_chain.specs.Certified.{IsCertified};
ghost use Rattle.pivot_chain.specs.Room.{IsRoomOf};

use crate::offer::Offer;
use crate::unmet::unmet_limit;
use geo_model::{Network, Plan};
use pivot_chain::ChainRoom;

/// Takes a candidate out of a certified plan where it stays certified. Where it doesn't, the plan is
/// as it was, and a limit is answered that isn't met without the candidate. `suspect` is the limit
/// that is asked first.
fn take_out(
    room: &mut ChainRoom,
    network: &Network,
    plan: &mut Plan,
    candidate: u32,
    suspect: Option<u32>,
) -> Option<u32>
    requires room { IsRoomOf network.now room.old }
    requires certified { IsCertified network.now plan.old }
    requires candidate { candidate < length network.now.candidates }
    requires suspect { IfSome suspect (λ limit. limit < length network.now.limits) }
    ensures kept { IfSome result (λ limit. plan.new ≡ plan.old) }
    ensures taken { IfNone result (plan.new ≡ slice_set plan.old candidate false) }
    ensures certified { IsCertified network.now plan.new }
    ensures inside { IfSome result (λ limit. limit < length network.now.limits) }
    ensures unmet { IfSome result (λ limit. IsCertified network.now (slice_set plan.old candidate false) → ⊥) }
    ensures room { IsRoomOf network.now room.new }
{
    let chosen = plan.has(candidate);
    plan.set(candidate, false);
    let unmet = unmet_limit(room, network, plan, suspect);
    if unmet.is_some() {
        plan.set(candidate, chosen);
    }
    unmet
}

/// Takes out of a certified plan one candidate after the other, each where the plan stays certified.
pub fn take_out_each(room: &mut ChainRoom, network: &Network, plan: &mut Plan, offers: &[Offer])
    requires room { IsRoomOf network.now room.old }
    requires certified { IsCertified network.now plan.old }
    requires candidates { All (λ offer. offer.candidate < length network.now.candidates) offers.now }
    ensures { IsCertified network.now plan.new }
{
    // Neighbours of a candidate that has to stay are often kept by the same limit.
    let mut suspect = None;
    for offer in offers {
        if let Some(limit) = take_out(room, network, plan, offer.candidate, suspect) {
            suspect = Some(limit);
        }
    }
}
