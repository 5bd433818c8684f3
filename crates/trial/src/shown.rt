//! A plan that is shown: its price and the verdicts of its limits.
ghost use Rattle.std.specs.Prelude.{◌≡◌, ◌++◌, ◌<◌, Some, flat_map, length, slice_get, OnOk};
ghost use Rattle.geo_model.specs.Limit.{LimitOf};
ghost use Rattle.trial.specs.Stacks.{IsSessionOf};
ghost use Rattle.trial.specs.Surveyed.{survey_of};
ghost use Rattle.trial.specs.TrialText.{limit_line, open_verdict_text, shown_plan_text, verdict_text};

use crate::session::Session;
use crate::survey::Survey;
use geo_base::NoMemory;
use geo_model::{Verdict, cost};
use limit_lines::{put_count, put_limit_name};
use text_num::put_whole;

// Appends the step and the interval of an open verdict, and ends its line.
fn put_open(text: &mut Vec<u8>, step: u32, lo: i128, hi: i128) -> Result<(), NoMemory>
    ensures { OnOk result (text.new.items ≡ text.old.items ++ open_verdict_text step lo hi) }
{
    text.extend_from_slice(b",open,")?;
    put_count(text, u64::from(step))?;
    text.extend_from_slice(b",")?;
    put_whole(text, lo)?;
    text.extend_from_slice(b",")?;
    put_whole(text, hi)?;
    text.extend_from_slice(b"\n")?;
    Ok(())
}

// Appends a verdict, and ends its line.
#[tactic(auto, unfolding(crate::specs::TrialText::verdict_text))]
fn put_verdict(text: &mut Vec<u8>, verdict: Verdict) -> Result<(), NoMemory>
    ensures { OnOk result (text.new.items ≡ text.old.items ++ verdict_text verdict) }
{
    match verdict {
        Verdict::Met => text.extend_from_slice(b",met\n")?,
        Verdict::Refuted => text.extend_from_slice(b",broken\n")?,
        Verdict::Open { step, lo, hi } => put_open(text, step, lo, hi)?,
    }
    Ok(())
}

// Appends the line of a limit, where it is in force.
fn put_limit(
    text: &mut Vec<u8>,
    survey: &Survey<'_>,
    session: &Session,
    number: usize,
) -> Result<(), NoMemory>
    requires made { IsSessionOf survey.now.network.now session.now }
    requires inside { number < length survey.now.network.now.limits }
    ensures { (limit : LimitOf) → slice_get survey.now.network.now.limits number ≡ Some limit
        → OnOk result (text.new.items ≡ text.old.items ++ limit_line (survey_of survey.now) session.now.plan limit) }
{
    let limit = &survey.network.limits()[number];
    if !limit.is_in_force(&session.plan) {
        return Ok(());
    }
    put_limit_name(text, survey.points, survey.candidates, limit.kind)?;
    put_verdict(text, session.stacks[number].verdict())
}

/// Appends the price of the plan and a line for each limit in force.
pub fn put_plan(text: &mut Vec<u8>, survey: &Survey<'_>, session: &Session) -> Result<(), NoMemory>
    requires { IsSessionOf survey.now.network.now session.now }
    ensures { OnOk result (text.new.items ≡ text.old.items ++ shown_plan_text (survey_of survey.now) session.now.plan) }
{
    text.extend_from_slice(b"cost ")?;
    put_count(text, cost(survey.network, &session.plan))?;
    text.extend_from_slice(b"\n")?;
    put_limits(text, survey, session)
}

// Appends a line for each limit in force.
fn put_limits(text: &mut Vec<u8>, survey: &Survey<'_>, session: &Session) -> Result<(), NoMemory>
    requires { IsSessionOf survey.now.network.now session.now }
    ensures { OnOk result (text.new.items ≡ text.old.items ++ flat_map (limit_line (survey_of survey.now) session.now.plan) survey.now.network.now.limits) }
{
    'limits: for number in 0..survey.network.limits().len() {
        put_limit(text, survey, session, number)?;
    }
    Ok(())
}
