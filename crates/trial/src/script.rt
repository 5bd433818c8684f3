//! A script, line by line.
ghost use Rattle.std.specs.Prelude.{◌≡◌, ◌++◌, length, IfOk, OnOk};
ghost use Rattle.candidate_tables.specs.CandidateTable as candidate;
ghost use Rattle.trial.specs.Script.{session_command};
ghost use Rattle.trial.specs.Session.{after};
ghost use Rattle.trial.specs.Stacks.{session_of, IsSessionOf};
ghost use Rattle.trial.specs.Surveyed.{survey_from, survey_of};
ghost use Rattle.trial.specs.TrialText.{answer_text, reply_text, trial_text};

use crate::answer::Reply;
use crate::command::{SessionCommand, body_of};
use crate::session::Session;
use crate::shown::put_plan;
use crate::survey::Survey;
use candidate_tables::Candidates;
use geo_base::NoMemory;
use geo_model::Network;
use lent_parts::lines;
use point_tables::Points;
use std::alloc::Global;

// Appends the text of an answer.
#[tactic(auto, unfolding(crate::specs::TrialText::answer_text))]
fn put_answer(
    text: &mut Vec<u8>,
    survey: &Survey<'_>,
    session: &Session,
    answer: Reply,
) -> Result<(), NoMemory>
    requires { IsSessionOf survey.now.network.now session.now }
    ensures { OnOk result (text.new.items ≡ text.old.items ++ answer_text (survey_of survey.now) session.now.plan answer) }
{
    match answer {
        Reply::Done => text.extend_from_slice(b"ok\n")?,
        Reply::NoCandidate => text.extend_from_slice(b"no candidate\n")?,
        Reply::TakenAlready => text.extend_from_slice(b"taken already\n")?,
        Reply::NotTaken => text.extend_from_slice(b"not taken\n")?,
        Reply::TooDeep => text.extend_from_slice(b"too deep\n")?,
        Reply::NothingToUndo => text.extend_from_slice(b"nothing to undo\n")?,
        Reply::Shown => put_plan(text, survey, session)?,
        Reply::TooManyShows => text.extend_from_slice(b"too many shows\n")?,
        Reply::NotACommand => text.extend_from_slice(b"not a command\n")?,
    }
    Ok(())
}

// Appends the answer to a line, and does what it asks for.
fn put_line(
    alloc: Global,
    text: &mut Vec<u8>,
    survey: &Survey<'_>,
    session: &mut Session,
    line: &[u8],
) -> Result<(), NoMemory>
    requires named { length survey.now.candidates.now ≡ length survey.now.network.now.candidates }
    requires made { IsSessionOf survey.now.network.now session.old }
    ensures text { OnOk result (text.new.items ≡ text.old.items ++ reply_text (survey_of survey.now) (session_of session.old) line.now) }
    ensures after { OnOk result (session_of session.new ≡ after (session_of session.old) (session_command (candidate.candidate_names survey.now.candidates.now) line.now)) }
    ensures made { OnOk result (IsSessionOf survey.now.network.now session.new) }
{
    let command = SessionCommand::read(survey.candidates, line);
    let answer = session.obey(alloc, survey.network, command)?;
    put_answer(text, survey, session, answer)
}

/// The answers to a script, each a line that ends with LF. It is cut into lines at LF, or CR and LF;
/// the last one needs no end, and an empty one has no answer. `take NAME` and `drop NAME` choose a
/// candidate or leave it out, `undo` takes the latest change back that isn't yet, and `show` answers
/// with the price of the plan and a line for each limit in force, in their order. At first no
/// candidate is chosen. There are at most 32 changes that aren't taken back, and 256 plans are shown.
/// The network is that of these tables. Refused for want of memory alone. The form of a script and of
/// the answers is this project's own.
pub fn run(
    alloc: Global,
    points: &Points,
    candidates: &Candidates,
    network: &Network,
    script: &[u8],
) -> Result<Vec<u8>, NoMemory>
    requires { length candidates.now ≡ length network.now.candidates }
    ensures { IfOk result (λ text. text.items ≡ trial_text (survey_from points.now candidates.now network.now) script.now) }
{
    let survey = Survey {
        points,
        candidates,
        network,
    };
    let mut session = Session::new(alloc, network)?;
    let mut text = Vec::new(alloc);
    for line in lines(script) {
        let body = body_of(&line);
        if !body.is_empty() {
            put_line(alloc, &mut text, &survey, &mut session, body)?;
        }
    }
    Ok(text)
}
