//! One more line of a log of format 2.
ghost use Rattle.std.specs.Prelude.{◌≡◌, ℕ, ◌<◌, true, length, IfErr, OnOk, OnErr};
ghost use Rattle.whole_algebra.specs.Matrices.{at};
ghost use Rattle.bound_log.specs.CutText.{displaced_by};
ghost use Rattle.bound_log.specs.Meanings.{AreNames, may_name, named_meaning, naming};
ghost use Rattle.bound_log.specs.declared.log_format.LogFormat.TheVariants as log_format;
ghost use Rattle.bound_log.specs.declared.named_line.NamedLine.TheVariants as named_line;
ghost use Rattle.log_check.specs.LineRoom.{IsLineRoom};
ghost use Rattle.log_check.specs.Places.{IsReady};
ghost use Rattle.log_check.specs.Taking.{StopsBody, StopsSaid, TakesBody, TakesSaid};

use crate::dual_uses::dual_bound_of_uses;
use crate::line_room::LineRoom;
use crate::moves::write_moves;
use crate::named_cuts::NamedCuts;
use crate::progress::Progress;
use crate::standing::take_standing;
use crate::uses::{broken_by_use, broken_by_uses};
use bound_log::{CutText, LogKind, LogLeaf, LogLine, NamedLine, Uses, read_line2};
use geo_model::Network;

/// Takes the text of a line of format 2 at the next node. On an error nothing has changed. It takes
/// no memory.
pub fn take_second(
    network: &Network,
    room: &mut LineRoom,
    progress: &mut Progress,
    text: &[u8],
) -> Result<(), LogKind>
    requires room { IsLineRoom network.now room.old }
    requires ready { IsReady network.now progress.old.stack }
    requires names { AreNames network.now progress.old.cuts }
    requires some { 0 < length progress.old.stack.nodes }
    ensures taken { OnOk result (TakesBody network.now log_format.Second text.now progress.old progress.new) }
    ensures stopped { IfErr result (λ kind. StopsBody network.now log_format.Second progress.old.cuts progress.old.stack.nodes text.now kind) }
    ensures refused { OnErr result (progress.new ≡ progress.old) }
    ensures kept { IsLineRoom network.now room.new }
{
    match read_line2(text) {
        Some(line) => take_named(network, room, progress, &line),
        None => Err(LogKind::Form),
    }
}

// Takes a line of format 2 at the next node.
fn take_named(
    network: &Network,
    room: &mut LineRoom,
    progress: &mut Progress,
    line: &NamedLine<'_>,
) -> Result<(), LogKind>
    requires room { IsLineRoom network.now room.old }
    requires ready { IsReady network.now progress.old.stack }
    requires names { AreNames network.now progress.old.cuts }
    requires some { 0 < length progress.old.stack.nodes }
    ensures taken { OnOk result (TakesSaid network.now (named_meaning progress.old.cuts line.now) progress.old progress.new) }
    ensures stopped { IfErr result (λ kind. StopsSaid network.now progress.old.cuts progress.old.stack.nodes (named_meaning progress.old.cuts line.now) kind) }
    ensures refused { OnErr result (progress.new ≡ progress.old) }
    ensures kept { IsLineRoom network.now room.new }
{
    match line {
        NamedLine::Split(candidate) => {
            take_standing(network, room, progress, &LogLine::Split(*candidate))
        }
        NamedLine::Cost => take_standing(network, room, progress, &LogLine::Leaf(LogLeaf::Cost)),
        NamedLine::Pivot(limit) => {
            let leaf = LogLeaf::Pivot(*limit);
            take_standing(network, room, progress, &LogLine::Leaf(leaf))
        }
        NamedLine::Named(cut) => take_name(network, room, progress, cut),
        NamedLine::UseCut(number) => take_use(network, room, progress, *number),
        NamedLine::UseDual(divisor, uses) => {
            take_use_dual(network, room, progress, *divisor, uses)
        }
    }
}

// Whether a further cut may be named. Where it may, its displacement is written.
fn may_name(network: &Network, room: &mut LineRoom, cuts: &NamedCuts, cut: &CutText<'_>) -> bool
    requires { IsLineRoom network.now room.old }
    ensures may { result ≡ may_name network.now cuts.now cut.now }
    ensures written { result ≡ true → (i : ℕ) → displaced_by cut.now.pairs i ≡ at room.new.moves i }
    ensures kept { IsLineRoom network.now room.new }
{
    let limits = network.limits();
    if cuts.is_full() {
        return false;
    }
    if cut.limit() >= limits.len() as u64 {
        return false;
    }
    write_moves(&mut room.moves, cut)
}

// Names a cut, while a node is open.
fn take_name(
    network: &Network,
    room: &mut LineRoom,
    progress: &mut Progress,
    cut: &CutText<'_>,
) -> Result<(), LogKind>
    requires room { IsLineRoom network.now room.old }
    requires some { 0 < length progress.old.stack.nodes }
    ensures taken { OnOk result (TakesSaid network.now (naming cut.now) progress.old progress.new) }
    ensures stopped { IfErr result (λ kind. StopsSaid network.now progress.old.cuts progress.old.stack.nodes (naming cut.now) kind) }
    ensures refused { OnErr result (progress.new ≡ progress.old) }
    ensures kept { IsLineRoom network.now room.new }
{
    // The network's bounds, for the proof.
    let _bounds = network.limits();
    if !may_name(network, room, &progress.cuts, cut) {
        return Err(LogKind::Range);
    }
    progress.cuts.add(cut.limit() as u32, &room.moves);
    Ok(())
}

// Takes a leaf that uses a cut.
fn take_use(
    network: &Network,
    room: &mut LineRoom,
    progress: &mut Progress,
    number: u64,
) -> Result<(), LogKind>
    requires room { IsLineRoom network.now room.old }
    requires ready { IsReady network.now progress.old.stack }
    requires names { AreNames network.now progress.old.cuts }
    requires some { 0 < length progress.old.stack.nodes }
    ensures taken { OnOk result (TakesSaid network.now (named_meaning progress.old.cuts (named_line.UseCut number)) progress.old progress.new) }
    ensures stopped { IfErr result (λ kind. StopsSaid network.now progress.old.cuts progress.old.stack.nodes (named_meaning progress.old.cuts (named_line.UseCut number)) kind) }
    ensures refused { OnErr result (progress.new ≡ progress.old) }
    ensures kept { IsLineRoom network.now room.new }
{
    let node = progress.stack.top();
    if let Some(kind) = broken_by_use(network, room, node, &progress.cuts, number) {
        return Err(kind);
    }
    progress.end_at_cut();
    Ok(())
}

// Takes a leaf of a dual bound that uses cuts.
fn take_use_dual(
    network: &Network,
    room: &mut LineRoom,
    progress: &mut Progress,
    divisor: u64,
    uses: &Uses<'_>,
) -> Result<(), LogKind>
    requires room { IsLineRoom network.now room.old }
    requires ready { IsReady network.now progress.old.stack }
    requires names { AreNames network.now progress.old.cuts }
    requires some { 0 < length progress.old.stack.nodes }
    ensures taken { OnOk result (TakesSaid network.now (named_meaning progress.old.cuts (named_line.UseDual divisor uses.now)) progress.old progress.new) }
    ensures stopped { IfErr result (λ kind. StopsSaid network.now progress.old.cuts progress.old.stack.nodes (named_meaning progress.old.cuts (named_line.UseDual divisor uses.now)) kind) }
    ensures refused { OnErr result (progress.new ≡ progress.old) }
    ensures kept { IsLineRoom network.now room.new }
{
    let node = progress.stack.top();
    if let Some(kind) = broken_by_uses(network, node, &progress.cuts, divisor, uses) {
        return Err(kind);
    }
    let least = dual_bound_of_uses(network, room, node, &progress.cuts, divisor, uses);
    progress.end_at_dual(least);
    Ok(())
}
