//! The reports of a search and of a replay.
ghost use Rattle.std.specs.Prelude.{◌≡◌, ◌++◌, length, IfOk, OnOk};
ghost use Rattle.candidate_tables.specs.CandidateTable.{candidate_names};
ghost use Rattle.pivot_chain.specs.Room.{IsRoomOf};
ghost use Rattle.plan_report.specs.Reported.{IsNetworkFor, IsAnswerFor, IsReport, IsReported};
ghost use Rattle.plan_report.specs.ReportText.{take_text, takes_text, price_text, choice_text, end_text, plan_text, no_plan_text, undecided_text, count_text, counts_text, bound_text, checked_text};

use crate::lengths::put_points;
use crate::open_limit::open_line;
use crate::redundancies::put_redundancies;
use crate::reported::Reported;
use bound_log::Bound;
use candidate_tables::Candidates;
use geo_base::NoMemory;
use geo_model::{Answer, Counts, Network, Plan, SearchDone, cost};
use itoa::Buffer;
use limit_lines::put_count;
use pivot_chain::ChainRoom;
use point_tables::{Name, Points};
use std::alloc::Global;

/// Appends the line of a chosen candidate.
fn put_take(text: &mut Vec<u8>, name: &Name) -> Result<(), NoMemory>
    ensures { OnOk result (text.new.items ≡ text.old.items ++ take_text name.now) }
{
    text.extend_from_slice(b"take,")?;
    text.extend_from_slice(name.bytes())?;
    text.extend_from_slice(b"\n")?;
    Ok(())
}

/// Appends a line for each chosen candidate.
fn put_takes(text: &mut Vec<u8>, candidates: &Candidates, plan: &Plan) -> Result<(), NoMemory>
    requires { length candidates.now ≡ length plan.now }
    ensures { OnOk result (text.new.items ≡ text.old.items ++ takes_text (candidate_names candidates.now) plan.now) }
{
    for k in 0..candidates.len() {
        let candidate = candidates.get(k);
        if plan.has(k) {
            put_take(text, &candidate.name)?;
        }
    }
    Ok(())
}

/// Appends the line of a price, after a word and a space. Refused for want of memory alone.
pub fn put_price(text: &mut Vec<u8>, word: &[u8], price: u64) -> Result<(), NoMemory>
    ensures { OnOk result (text.new.items ≡ text.old.items ++ price_text word.now price) }
{
    text.extend_from_slice(word)?;
    put_count(text, price)?;
    text.extend_from_slice(b"\n")?;
    Ok(())
}

/// Appends a count, after a comma.
fn put_counted(text: &mut Vec<u8>, count: u64) -> Result<(), NoMemory>
    ensures { OnOk result (text.new.items ≡ text.old.items ++ count_text count) }
{
    text.extend_from_slice(b",")?;
    put_count(text, count)
}

/// Appends the line of the numbers of lines of each kind of a log. Refused for want of memory alone.
#[tactic(auto, unfolding(crate::specs::ReportText::counts_text))]
pub fn put_counts(text: &mut Vec<u8>, counts: &Counts) -> Result<(), NoMemory>
    ensures { OnOk result (text.new.items ≡ text.old.items ++ counts_text counts.now) }
{
    text.extend_from_slice(b"log")?;
    put_counted(text, counts.splits)?;
    put_counted(text, counts.costs)?;
    put_counted(text, counts.pivots)?;
    put_counted(text, counts.cuts)?;
    put_counted(text, counts.duals)?;
    text.extend_from_slice(b"\n")?;
    Ok(())
}

/// Appends the price of a plan, and the lines of its candidates.
fn put_choice(text: &mut Vec<u8>, reported: &Reported<'_>) -> Result<(), NoMemory>
    requires { IsReported reported.now }
    ensures { OnOk result (text.new.items ≡ text.old.items ++ choice_text (candidate_names reported.now.candidates.now) reported.now.network.now reported.now.plan.now) }
{
    let price = cost(reported.network, reported.plan);
    put_price(text, b"cost ", price)?;
    put_takes(text, reported.candidates, reported.plan)?;
    Ok(())
}

/// Appends the counts of the lines of a log, and its bound, which is the price of the plan.
fn put_end(text: &mut Vec<u8>, reported: &Reported<'_>, counts: &Counts) -> Result<(), NoMemory>
    requires { IsReported reported.now }
    ensures { OnOk result (text.new.items ≡ text.old.items ++ end_text reported.now.network.now reported.now.plan.now counts.now) }
{
    let price = cost(reported.network, reported.plan);
    put_counts(text, counts)?;
    put_price(text, b"bound ", price)?;
    Ok(())
}

/// The report of a plan that meets the limits, over a room for verdicts.
fn found_text(
    alloc: Global,
    room: &mut ChainRoom,
    reported: &Reported<'_>,
    counts: &Counts,
) -> Result<Vec<u8>, NoMemory>
    requires reported { IsReported reported.now }
    requires room { IsRoomOf reported.now.network.now room.old }
    ensures { IfOk result (λ text. text.items ≡ plan_text reported.now.points.now (candidate_names reported.now.candidates.now) reported.now.q reported.now.network.now reported.now.plan.now counts.now) }
{
    let mut text = Vec::from_slice(alloc, b"plan\n")?;
    put_choice(&mut text, reported)?;
    put_points(&mut text, room, reported)?;
    put_redundancies(&mut text, room, reported)?;
    put_end(&mut text, reported, counts)?;
    Ok(text)
}

/// The report of a plan that meets the limits.
fn found_report(
    alloc: Global,
    reported: &Reported<'_>,
    counts: &Counts,
) -> Result<Vec<u8>, NoMemory>
    requires { IsReported reported.now }
    ensures { IfOk result (λ text. text.items ≡ plan_text reported.now.points.now (candidate_names reported.now.candidates.now) reported.now.q reported.now.network.now reported.now.plan.now counts.now) }
{
    let mut room = ChainRoom::new(alloc, reported.network)?;
    found_text(alloc, &mut room, reported, counts)
}

/// The report of a plan that is not decided, with the line of its open limit.
fn undecided_report(
    alloc: Global,
    reported: &Reported<'_>,
    line: &[u8],
    counts: &Counts,
) -> Result<Vec<u8>, NoMemory>
    requires { IsReported reported.now }
    ensures { IfOk result (λ text. text.items ≡ undecided_text (candidate_names reported.now.candidates.now) reported.now.network.now reported.now.plan.now line.now counts.now) }
{
    let mut text = Vec::from_slice(alloc, b"undecided\n")?;
    put_choice(&mut text, reported)?;
    text.extend_from_slice(line)?;
    put_end(&mut text, reported, counts)?;
    Ok(text)
}

/// The report that no plan meets the limits.
fn no_plan_report(alloc: Global, counts: &Counts) -> Result<Vec<u8>, NoMemory>
    ensures { IfOk result (λ text. text.items ≡ no_plan_text counts.now) }
{
    let mut text = Vec::from_slice(alloc, b"no plan\n")?;
    put_counts(&mut text, counts)?;
    text.extend_from_slice(b"bound none\n")?;
    Ok(text)
}

/// The report of the answer of a search of the network of these tables, with a redundancy limit of
/// `q` thousandths. The network has the unknowns and candidates that `net_build::build` answers for
/// them, and its limits, followed by any number of added ones. Lengths are in mm with one place,
/// redundancies have three places. The shown value of an axis or a height is the upper end of a
/// halving from 0 to its limit: at this value the plan is known to meet it, at the one below it isn't,
/// or that is 0. The shown redundancy of a row is the lower end of one from `q` to 1000 thousandths.
/// Refused for want of memory alone. The form of the text is this project's own.
pub fn report(
    alloc: Global,
    points: &Points,
    candidates: &Candidates,
    network: &Network,
    q: u32,
    done: &SearchDone,
) -> Result<Vec<u8>, NoMemory>
    requires network { IsNetworkFor points.now candidates.now q network.now }
    requires answer { IsAnswerFor network.now done.now.answer }
    ensures { IfOk result (λ text. IsReport points.now candidates.now q network.now done.now.counts done.now.answer text.items) }
{
    match &done.answer {
        Answer::Best(plan) => {
            let reported = Reported {
                points,
                candidates,
                q,
                network,
                plan,
            };
            found_report(alloc, &reported, &done.counts)
        }
        Answer::NoPlan => no_plan_report(alloc, &done.counts),
        Answer::Undecided {
            plan,
            limit: number,
            step,
            lo,
            hi,
        } => {
            let limit = &network.limits()[*number as usize];
            let line = open_line(alloc, points, candidates, limit.kind, *step, *lo, *hi)?;
            let reported = Reported {
                points,
                candidates,
                q,
                network,
                plan,
            };
            undecided_report(alloc, &reported, line.as_slice(), &done.counts)
        }
    }
}

/// Appends the line of the bound of a log. Refused for want of memory alone.
#[tactic(auto, unfolding(crate::specs::ReportText::bound_text))]
pub fn put_bound(text: &mut Vec<u8>, bound: Bound) -> Result<(), NoMemory>
    ensures { OnOk result (text.new.items ≡ text.old.items ++ bound_text bound) }
{
    match bound {
        Bound::NoPlan => {
            text.extend_from_slice(b"bound none\n")?;
        }
        Bound::AtLeast(price) => {
            text.extend_from_slice(b"bound ")?;
            let mut buffer = Buffer::new();
            text.extend_from_slice(buffer.format(price).as_bytes())?;
            text.extend_from_slice(b"\n")?;
        }
    }
    Ok(())
}

/// What is printed where a log is accepted: the numbers of its lines, and its bound. Refused for want
/// of memory alone.
pub fn checked_report(alloc: Global, counts: &Counts, bound: Bound) -> Result<Vec<u8>, NoMemory>
    ensures { IfOk result (λ text. text.items ≡ checked_text counts.now bound) }
{
    let mut text = Vec::from_slice(alloc, b"accepted\n")?;
    put_counts(&mut text, counts)?;
    put_bound(&mut text, bound)?;
    Ok(text)
}
