//! What the lines of a text that were judged came to.
ghost use Rattle.std.specs.Prelude.{◌≡◌, [], None, IfOk};
ghost use Rattle.log_check.specs.Fed.{IsSound, Judges, IsAnswerAtEnd};
ghost use Rattle.log_check.specs.Reaching.{HasTaken};

use crate::fault::LogFault;
use crate::line_room::LineRoom;
use crate::progress::Progress;
use crate::replaying::Replayed;
use crate::taking::take_line;
use bound_log::LogKind;
use geo_base::NoMemory;
use geo_model::Network;
use lent_parts::Line;
use std::alloc::Global;

/// How far the lines that were judged lead, and the first one that was wrong.
#[derive(Drop)]
pub struct Judged {
    pub room: LineRoom,
    pub progress: Progress,
    pub fault: Option<LogFault>,
}

impl Judged {
    /// Before the first line. It takes all the memory that judging lines needs.
    pub fn new(alloc: Global, network: &Network) -> Result<Judged, NoMemory>
        ensures sound { IfOk result (IsSound network.now) }
        ensures start { IfOk result (λ made. HasTaken network.now [] made.progress) }
        ensures right { IfOk result (λ made. made.fault ≡ None) }
    {
        let room = LineRoom::new(alloc, network)?;
        let progress = Progress::new(alloc, network)?;
        Ok(Judged {
            room,
            progress,
            fault: None,
        })
    }

    /// Judges the next line. After a wrong line nothing changes.
    pub fn judge(&mut self, network: &Network, line: Line<'_>)
        requires { IsSound network.now self.old }
        ensures judged { Judges network.now (record { text = line.entry.text.now; ended = line.entry.ended }) self.old self.new }
        ensures sound { IsSound network.now self.new }
    {
        if self.fault.is_some() {
            return;
        }
        let judged = take_line(
            network,
            &mut self.room,
            &mut self.progress,
            line.text,
            line.ended,
        );
        if let Err(kind) = judged {
            let line = self.progress.lines.saturating_add(1);
            self.fault = Some(LogFault { line, kind });
        }
    }

    /// What the lines come to where no further one follows.
    pub fn end(&self) -> Result<Replayed, LogFault>
        ensures { IsAnswerAtEnd self.now result }
    {
        if let Some(fault) = self.fault {
            return Err(fault);
        }
        if self.progress.lines == 0 {
            return Err(LogFault {
                line: 1,
                kind: LogKind::Form,
            });
        }
        if !self.progress.stack.is_empty() {
            return Err(LogFault {
                line: self.progress.lines.saturating_add(1),
                kind: LogKind::Short,
            });
        }
        Ok(Replayed {
            bound: self.progress.bound,
            counts: self.progress.counts,
        })
    }
}
