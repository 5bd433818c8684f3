ghost use Rattle.std.specs.Prelude.{◌≡◌};
ghost use Rattle.log_check.specs.declared.fault.ReplayAnswer.TheVariants as replay_answer;

use bound_log::LogKind;
use geo_base::NoMemory as WantOfMemory;

/// The first fault of a text that is no log: its line, counted from 1, and its kind. Where the text
/// ends too early the line is one more than the number of lines.
#[derive(Clone, Copy, Debug, PartialEq, Eq)]
pub struct LogFault {
    pub line: u64,
    pub kind: LogKind,
}

/// Why a text was not replayed: its first fault, or want of memory, which says nothing of the text.
#[derive(Clone, Copy, Debug, PartialEq, Eq)]
pub enum ReplayAnswer {
    Fault(LogFault),
    NoMemory,
}

impl From<WantOfMemory> for ReplayAnswer {
    ghost from_gives = { λ _ answer. answer ≡ replay_answer.NoMemory };

    fn from(_refused: WantOfMemory) -> ReplayAnswer {
        ReplayAnswer::NoMemory
    }
}
