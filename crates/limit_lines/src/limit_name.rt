//! Which limit it is.
ghost use Rattle.std.specs.Prelude.{◌≡◌, ◌++◌, [], get_or, OnOk};
ghost use Rattle.std.specs.Fmt.{decimal};
ghost use Rattle.candidate_tables.specs.CandidateTable as candidate;
ghost use Rattle.point_tables.specs.PointTable as point;
ghost use Rattle.limit_lines.specs.LimitText.{limit_text};

use candidate_tables::Candidates;
use geo_base::NoMemory;
use geo_model::LimitKind;
use point_tables::Points;
use text_num::put_whole;

// The name of a point, and no bytes where there is no point of this number.
fn point_name(points: &Points, place: u32) -> &[u8]
    ensures { result.now ≡ get_or (point.point_names points.now) place [] }
{
    if place >= points.len() {
        return b"";
    }
    points.get(place).name.bytes()
}

// The name of a candidate, and no bytes where there is no candidate of this number.
fn candidate_name(candidates: &Candidates, place: u32) -> &[u8]
    ensures { result.now ≡ get_or (candidate.candidate_names candidates.now) place [] }
{
    if place >= candidates.len() {
        return b"";
    }
    candidates.get(place).name.bytes()
}

/// Appends the digits of a count. Refused for want of memory alone.
#[tactic(auto, unfolding(text_num::specs::Whole::whole_text))]
pub fn put_count(text: &mut Vec<u8>, count: u64) -> Result<(), NoMemory>
    ensures { OnOk result (text.new.items ≡ text.old.items ++ decimal count) }
{
    put_whole(text, i128::from(count))
}

/// Appends which limit of these points and candidates it is. Refused for want of memory alone.
#[tactic(auto, unfolding(crate::specs::LimitText::limit_text))]
pub fn put_limit_name(
    text: &mut Vec<u8>,
    points: &Points,
    candidates: &Candidates,
    kind: LimitKind,
) -> Result<(), NoMemory>
    ensures { OnOk result (text.new.items ≡ text.old.items ++ limit_text (point.point_names points.now) (candidate.candidate_names candidates.now) kind) }
{
    match kind {
        LimitKind::Axis(place) => {
            text.extend_from_slice(b"axis,")?;
            text.extend_from_slice(point_name(points, place))?;
        }
        LimitKind::Height(place) => {
            text.extend_from_slice(b"height,")?;
            text.extend_from_slice(point_name(points, place))?;
        }
        LimitKind::Redundancy(owner, row) => {
            text.extend_from_slice(b"redundancy,")?;
            text.extend_from_slice(candidate_name(candidates, owner))?;
            text.extend_from_slice(b",")?;
            put_count(text, u64::from(row) + 1)?;
        }
        LimitKind::Added(number) => {
            text.extend_from_slice(b"added,")?;
            put_count(text, u64::from(number))?;
        }
    }
    Ok(())
}
