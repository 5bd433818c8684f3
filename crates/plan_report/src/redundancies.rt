//! The lines of the redundancies of the rows of chosen candidates.
ghost use Rattle.std.specs.Prelude.{◌≡◌, ◌++◌, ◌<◌, ◌≤◌, [], Some, get_or, length, slice_get, OnOk};
ghost use Rattle.geo_model.specs.Candidate.{CandidateOf};
ghost use Rattle.geo_model.specs.Row.{RowOf};
ghost use Rattle.candidate_tables.specs.CandidateTable.{candidate_names};
ghost use Rattle.pivot_chain.specs.Room.{IsRoomOf};
ghost use Rattle.plan_report.specs.Reported.{IsReported};
ghost use Rattle.plan_report.specs.ReportText.{redundancy_text, row_redundancy_text, chosen_text};
ghost use Rattle.plan_report.specs.RowsText.{numbered};

use crate::lengths::put_values;
use crate::reported::Reported;
use crate::shown::shown_redundancy;
use geo_base::NoMemory;
use geo_model::Candidate;
use limit_lines::put_count;
use pivot_chain::ChainRoom;
use point_tables::Name;

// Appends the line of a row.
fn put_redundancy(
    text: &mut Vec<u8>,
    name: &Name,
    number: u64,
    shown: u32,
    limit: u32,
) -> Result<(), NoMemory>
    ensures { OnOk result (text.new.items ≡ text.old.items ++ redundancy_text name.now number shown limit) }
{
    text.extend_from_slice(b"redundancy,")?;
    text.extend_from_slice(name.bytes())?;
    text.extend_from_slice(b",")?;
    put_count(text, number)?;
    put_values(text, 3, shown, limit)?;
    Ok(())
}

// Appends the line of a row of a candidate of this name.
fn put_row(
    text: &mut Vec<u8>,
    room: &mut ChainRoom,
    reported: &Reported<'_>,
    name: &Name,
    owner: u32,
    place: u32,
) -> Result<(), NoMemory>
    requires reported { IsReported reported.now }
    requires room { IsRoomOf reported.now.network.now room.old }
    requires owner { owner < length reported.now.network.now.candidates }
    requires row { (c : CandidateOf) → slice_get reported.now.network.now.candidates owner ≡ Some c → place < length c.rows }
    ensures text { (c : CandidateOf) (r : RowOf) → slice_get reported.now.network.now.candidates owner ≡ Some c → slice_get c.rows place ≡ Some r → OnOk result (text.new.items ≡ text.old.items ++ row_redundancy_text reported.now.network.now reported.now.plan.now reported.now.q name.now owner place r) }
    ensures room { IsRoomOf reported.now.network.now room.new }
{
    let network = reported.network;
    let shown = shown_redundancy(room, network, reported.plan, owner, place, reported.q);
    put_redundancy(text, name, u64::from(place) + 1, shown, reported.q)?;
    Ok(())
}

// Appends the lines of the rows of a candidate.
fn put_rows(
    text: &mut Vec<u8>,
    room: &mut ChainRoom,
    reported: &Reported<'_>,
    owner: u32,
    candidate: &Candidate,
) -> Result<(), NoMemory>
    requires reported { IsReported reported.now }
    requires room { IsRoomOf reported.now.network.now room.old }
    requires owner { slice_get reported.now.network.now.candidates owner ≡ Some candidate.now }
    ensures text { OnOk result (text.new.items ≡ text.old.items ++ numbered (row_redundancy_text reported.now.network.now reported.now.plan.now reported.now.q (get_or (candidate_names reported.now.candidates.now) owner []) owner) 0 candidate.now.rows) }
    ensures room { IsRoomOf reported.now.network.now room.new }
{
    // The network's bounds, for the proof.
    let _bounds = reported.network.candidates();
    let name = &reported.candidates.get(owner).name;
    'rows: for place in 0..candidate.rows.len() {
        put_row(text, room, reported, name, owner, place as u32)?;
    }
    Ok(())
}

// Appends the lines of a candidate, where it is chosen.
fn put_candidate(
    text: &mut Vec<u8>,
    room: &mut ChainRoom,
    reported: &Reported<'_>,
    owner: u32,
    candidate: &Candidate,
) -> Result<(), NoMemory>
    requires reported { IsReported reported.now }
    requires room { IsRoomOf reported.now.network.now room.old }
    requires owner { slice_get reported.now.network.now.candidates owner ≡ Some candidate.now }
    ensures text { OnOk result (text.new.items ≡ text.old.items ++ chosen_text reported.now.network.now reported.now.plan.now reported.now.q (candidate_names reported.now.candidates.now) owner candidate.now) }
    ensures room { IsRoomOf reported.now.network.now room.new }
{
    if !reported.plan.has(owner) {
        return Ok(());
    }
    put_rows(text, room, reported, owner, candidate)?;
    Ok(())
}

/// Appends the lines of the rows of chosen candidates, in the order of the candidates.
pub(crate) fn put_redundancies(
    text: &mut Vec<u8>,
    room: &mut ChainRoom,
    reported: &Reported<'_>,
) -> Result<(), NoMemory>
    requires reported { IsReported reported.now }
    requires room { IsRoomOf reported.now.network.now room.old }
    ensures text { OnOk result (text.new.items ≡ text.old.items ++ numbered (chosen_text reported.now.network.now reported.now.plan.now reported.now.q (candidate_names reported.now.candidates.now)) 0 reported.now.network.now.candidates) }
    ensures room { IsRoomOf reported.now.network.now room.new }
{
    let offered = reported.network.candidates();
    'offers: for owner in 0..offered.len() {
        put_candidate(text, room, reported, owner as u32, &offered[owner])?;
    }
    Ok(())
}
