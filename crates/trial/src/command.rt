//! The commands of a script.
ghost use Rattle.std.specs.Prelude.{◌≡◌, length};
ghost use Rattle.candidate_tables.specs.CandidateTable.{candidate_names};
ghost use Rattle.lent_parts.specs.Walks.{line_of};
ghost use Rattle.trial.specs.Script.{session_command, line_without_end, IsInside};

use candidate_tables::Candidates;
use lent_parts::Line;

/// What a line of a script asks for.
#[derive(Clone, Copy, Debug)]
pub enum SessionCommand {
    /// A candidate is to be chosen or left out. None where no candidate has the name.
    Change {
        candidate: Option<u32>,
        chosen: bool,
    },
    /// The latest change is to be taken back.
    Undo,
    /// The plan is to be shown.
    Show,
    Unknown,
}

impl SessionCommand {
    /// What a line asks for, without its end.
    #[tactic(auto, unfolding(crate::specs::Script::session_command))]
    pub fn read(candidates: &Candidates, line: &[u8]) -> SessionCommand
        ensures value { result ≡ session_command (candidate_names candidates.now) line.now }
        ensures inside { IsInside (length candidates.now) result }
    {
        if let Some(name) = line.strip_prefix(b"take ") {
            return SessionCommand::Change {
                candidate: candidates.find(name),
                chosen: true,
            };
        }
        if let Some(name) = line.strip_prefix(b"drop ") {
            return SessionCommand::Change {
                candidate: candidates.find(name),
                chosen: false,
            };
        }
        match line {
            b"undo" => SessionCommand::Undo,
            b"show" => SessionCommand::Show,
            _ => SessionCommand::Unknown,
        }
    }
}

// A line without its end: LF, or CR and LF.
pub fn body_of<'a>(line: &Line<'a>) -> &'a [u8]
    ensures { result.now ≡ line_without_end (line_of line.now) }
{
    let text = line.text;
    let n = text.len();
    if !line.ended || n == 0 || text[n - 1] != b'\r' {
        return text;
    }
    &text[..n - 1]
}
