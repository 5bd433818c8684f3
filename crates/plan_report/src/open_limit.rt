//! The line of an open limit.
ghost use Rattle.std.specs.Prelude.{◌≡◌, ◌++◌, IfOk, OnOk};
ghost use Rattle.candidate_tables.specs.CandidateTable as candidate;
ghost use Rattle.point_tables.specs.PointTable as point;
ghost use Rattle.limit_lines.specs.LimitText.{limit_text};
ghost use Rattle.plan_report.specs.ReportText.{interval_text, open_text};

use candidate_tables::Candidates;
use geo_base::NoMemory;
use geo_model::LimitKind;
use limit_lines::{put_count, put_limit_name};
use point_tables::Points;
use std::alloc::Global;
use text_num::put_whole;

/// Appends an interval, and ends its line.
fn put_interval(text: &mut Vec<u8>, lo: i128, hi: i128) -> Result<(), NoMemory>
    ensures { OnOk result (text.new.items ≡ text.old.items ++ interval_text lo hi) }
{
    put_whole(text, lo)?;
    text.extend_from_slice(b",")?;
    put_whole(text, hi)?;
    text.extend_from_slice(b"\n")?;
    Ok(())
}

/// The line of an open limit of these points and candidates: which limit it is, the step of its chain,
/// and the interval there. Refused for want of memory alone.
pub(crate) fn open_line(
    alloc: Global,
    points: &Points,
    candidates: &Candidates,
    kind: LimitKind,
    step: u32,
    lo: i128,
    hi: i128,
) -> Result<Vec<u8>, NoMemory>
    ensures { IfOk result (λ text. text.items ≡ open_text (limit_text (point.point_names points.now) (candidate.candidate_names candidates.now) kind) step lo hi) }
{
    let mut text = Vec::from_slice(alloc, b"open,")?;
    put_limit_name(&mut text, points, candidates, kind)?;
    text.extend_from_slice(b",")?;
    put_count(&mut text, u64::from(step))?;
    text.extend_from_slice(b",")?;
    put_interval(&mut text, lo, hi)?;
    Ok(text)
}
