//! The verdicts of a plan, as lines.
ghost use Rattle.std.specs.Prelude.{◌≡◌, ◌++◌, ◌<◌, ◌≤◌, length, Some, slice_get, OnOk};
ghost use Rattle.geo_model.specs.Limit.{LimitOf};
ghost use Rattle.pivot_chain.specs.Room.{IsRoomOf};
ghost use Rattle.pivot_chain.specs.Verdict.{verdict_of};
ghost use Rattle.verdict_cli.specs.Answer.{verdict_line, verdict_lines};

use geo_base::NoMemory;
use geo_model::{Network, Plan, Verdict};
use pivot_chain::{ChainRoom, verdict};
use text_num::put_whole;

/// Appends the line of a verdict: `met`, `refuted`, or `open`, the step and the ends of the interval.
pub fn put_verdict(out: &mut Vec<u8>, verdict: Verdict) -> Result<(), NoMemory>
    ensures { OnOk result (out.new.items ≡ out.old.items ++ verdict_line verdict) }
{
    match verdict {
        Verdict::Met => out.extend_from_slice(b"met\n")?,
        Verdict::Refuted => out.extend_from_slice(b"refuted\n")?,
        Verdict::Open { step, lo, hi } => {
            out.extend_from_slice(b"open,")?;
            put_whole(out, i128::from(step))?;
            out.push(b',')?;
            put_whole(out, lo)?;
            out.push(b',')?;
            put_whole(out, hi)?;
            out.push(b'\n')?;
        }
    }
    Ok(())
}

// The verdict of a plan on a limit, reckoned so many times.
fn repeated(room: &mut ChainRoom, network: &Network, plan: &Plan, limit: u32, times: u32) -> Verdict
    requires room { IsRoomOf network.now room.old }
    requires plan { length plan.now ≡ length network.now.candidates }
    requires limit { limit < length network.now.limits }
    ensures exact { (l : LimitOf) → slice_get network.now.limits limit ≡ Some l → result ≡ verdict_of network.now plan.now l }
    ensures kept { IsRoomOf network.now room.new }
{
    let mut last = verdict(room, network, plan, limit);
    for _ in 1..times {
        last = verdict(room, network, plan, limit);
    }
    last
}

/// Appends the verdicts of a plan on all limits, a line each, after each was reckoned `times` times.
pub fn put_verdicts(
    out: &mut Vec<u8>,
    room: &mut ChainRoom,
    network: &Network,
    plan: &Plan,
    times: u32,
) -> Result<(), NoMemory>
    requires room { IsRoomOf network.now room.old }
    requires plan { length plan.now ≡ length network.now.candidates }
    ensures lines { OnOk result (out.new.items ≡ out.old.items ++ verdict_lines network.now plan.now) }
    ensures kept { OnOk result (IsRoomOf network.now room.new) }
{
    for limit in 0..network.limits().len() as u32 {
        let told = repeated(room, network, plan, limit, times);
        put_verdict(out, told)?;
    }
    Ok(())
}
