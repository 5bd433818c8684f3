//! One more line of the tree of a log.
ghost use Rattle.std.specs.Prelude.{◌≡◌, ◌<◌, length, IfErr, OnOk, OnErr};
ghost use Rattle.bound_log.specs.Meanings.{standing};
ghost use Rattle.log_check.specs.LineRoom.{IsLineRoom};
ghost use Rattle.log_check.specs.Places.{IsReady};
ghost use Rattle.log_check.specs.Taking.{StopsSaid, TakesSaid};

use crate::line_room::LineRoom;
use crate::progress::Progress;
use crate::rules::broken_rule;
use bound_log::{LogKind, LogLine};
use geo_model::Network;

/// Takes a line of the tree at the next node. On an error nothing has changed. It takes no memory.
pub fn take_standing(
    network: &Network,
    room: &mut LineRoom,
    progress: &mut Progress,
    line: &LogLine<'_>,
) -> Result<(), LogKind>
    requires room { IsLineRoom network.now room.old }
    requires ready { IsReady network.now progress.old.stack }
    requires some { 0 < length progress.old.stack.nodes }
    ensures taken { OnOk result (TakesSaid network.now (standing line.now) progress.old progress.new) }
    ensures stopped { IfErr result (λ kind. StopsSaid network.now progress.old.cuts progress.old.stack.nodes (standing line.now) kind) }
    ensures refused { OnErr result (progress.new ≡ progress.old) }
    ensures kept { IsLineRoom network.now room.new }
{
    if let Some(kind) = broken_rule(network, room, progress.stack.top(), line) {
        return Err(kind);
    }
    progress.take(network, room, line);
    Ok(())
}
