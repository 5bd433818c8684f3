//! One more line of a log.
ghost use Rattle.std.specs.Prelude.{◌≡◌, ◌<◌, true, length, IfErr, OnOk, OnErr};
ghost use Rattle.bound_log.specs.Formats.{head_body_in};
ghost use Rattle.bound_log.specs.Meanings.{AreNames};
ghost use Rattle.bound_log.specs.declared.log_format.LogFormat.{LogFormat as FormatOf};
ghost use Rattle.bound_log.specs.declared.log_format.LogFormat.TheVariants as log_format;
ghost use Rattle.bound_log.specs.declared.log_kind.LogKind.TheVariants.{Form};
ghost use Rattle.log_check.specs.LineRoom.{IsLineRoom};
ghost use Rattle.log_check.specs.Places.{IsReady};
ghost use Rattle.log_check.specs.Taking.{Stops, StopsBody, StopsLine, TakesBody, TakesHead, TakesLine, TakesText};

use crate::line_room::LineRoom;
use crate::progress::Progress;
use crate::standing::take_standing;
use crate::taking_named::take_second;
use bound_log::{LogFormat, LogKind, head_format, read_line};
use geo_model::Network;

/// Takes the text of a line, which LF ends or not: that of the first line of a log, or one at the
/// next node. On an error nothing has changed. The count of lines stands still at its end.
pub fn take_line(
    network: &Network,
    room: &mut LineRoom,
    progress: &mut Progress,
    text: &[u8],
    ended: bool,
) -> Result<(), LogKind>
    requires room { IsLineRoom network.now room.old }
    requires ready { IsReady network.now progress.old.stack }
    requires names { AreNames network.now progress.old.cuts }
    ensures taken { OnOk result (TakesLine network.now text.now ended progress.old progress.new) }
    ensures stopped { IfErr result (λ kind. StopsLine network.now progress.old text.now ended kind) }
    ensures refused { OnErr result (progress.new ≡ progress.old) }
    ensures kept { IsLineRoom network.now room.new }
{
    if progress.lines == 0 {
        return take_head(progress, text, ended);
    }
    if let Err(kind) = take_at_node(network, room, progress, text, ended) {
        return Err(kind);
    }
    progress.lines = progress.lines.saturating_add(1);
    Ok(())
}

// Takes the text of the first line of a log, which tells its format.
fn take_head(progress: &mut Progress, text: &[u8], ended: bool) -> Result<(), LogKind>
    requires { progress.old.lines ≡ 0 }
    ensures taken { OnOk result (TakesHead text.now ended progress.old progress.new) }
    ensures stopped { IfErr result (λ kind. (kind ≡ Form) × (ended ≡ true → (format : FormatOf) → text.now ≡ head_body_in format → ⊥)) }
    ensures refused { OnErr result (progress.new ≡ progress.old) }
{
    if !ended {
        return Err(LogKind::Form);
    }
    let Some(format) = head_format(text) else {
        return Err(LogKind::Form);
    };
    progress.format = format;
    progress.lines = 1;
    Ok(())
}

// Takes the text of a line at the next node.
fn take_at_node(
    network: &Network,
    room: &mut LineRoom,
    progress: &mut Progress,
    text: &[u8],
    ended: bool,
) -> Result<(), LogKind>
    requires room { IsLineRoom network.now room.old }
    requires ready { IsReady network.now progress.old.stack }
    requires names { AreNames network.now progress.old.cuts }
    ensures taken { OnOk result (TakesText network.now progress.old.format text.now ended progress.old progress.new) }
    ensures stopped { IfErr result (λ kind. Stops network.now progress.old.format progress.old.cuts progress.old.stack.nodes text.now ended kind) }
    ensures refused { OnErr result (progress.new ≡ progress.old) }
    ensures kept { IsLineRoom network.now room.new }
{
    if progress.stack.is_empty() {
        return Err(LogKind::Extra);
    }
    if !ended {
        return Err(LogKind::Form);
    }
    match progress.format {
        LogFormat::First => take_first(network, room, progress, text),
        LogFormat::Second => take_second(network, room, progress, text),
    }
}

// Takes the text of a line of format 1 at the next node.
fn take_first(
    network: &Network,
    room: &mut LineRoom,
    progress: &mut Progress,
    text: &[u8],
) -> Result<(), LogKind>
    requires room { IsLineRoom network.now room.old }
    requires ready { IsReady network.now progress.old.stack }
    requires some { 0 < length progress.old.stack.nodes }
    ensures taken { OnOk result (TakesBody network.now log_format.First text.now progress.old progress.new) }
    ensures stopped { IfErr result (λ kind. StopsBody network.now log_format.First progress.old.cuts progress.old.stack.nodes text.now kind) }
    ensures refused { OnErr result (progress.new ≡ progress.old) }
    ensures kept { IsLineRoom network.now room.new }
{
    match read_line(text) {
        Some(line) => take_standing(network, room, progress, &line),
        None => Err(LogKind::Form),
    }
}
