//! The replay of a log that is at hand as one text.
ghost use Rattle.std.specs.Prelude.{IfOk, IfErr};
ghost use Rattle.log_check.specs.Replayed.{IsReplayed, IsCause};

use crate::fault::ReplayAnswer;
use crate::replayer::Replayer;
use bound_log::Bound;
use geo_model::{Counts, Network};
use lent_parts::lines;
use std::alloc::Global;

/// What a log proves: its bound, and how many lines of each kind it has.
#[derive(Clone, Copy, Debug, PartialEq, Eq)]
pub struct Replayed {
    pub bound: Bound,
    pub counts: Counts,
}

/// Replays a text on a network. Where the text is a log it answers the log's bound and how many
/// lines of each kind there are, and otherwise the text's first fault. It takes all its memory at
/// its start, and the lines are only read.
pub fn replay(alloc: Global, network: &Network, log: &[u8]) -> Result<Replayed, ReplayAnswer>
    ensures replayed { IfOk result (λ done. IsReplayed network.now log.now done) }
    ensures fault { IfErr result (λ why. IsCause network.now log.now why) }
{
    let mut replayer = Replayer::new(alloc, network)?;
    let mut walk = lines(log);
    while let Some(line) = walk.next() {
        if let Err(fault) = replayer.line(line) {
            return Err(ReplayAnswer::Fault(fault));
        }
    }
    match replayer.finish() {
        Ok(done) => Ok(done),
        Err(fault) => Err(ReplayAnswer::Fault(fault)),
    }
}
