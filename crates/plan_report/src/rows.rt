//! The text of the command `rows`.
ghost use Rattle.std.specs.Prelude.{◌≡◌, ◌<◌, ◌≤◌, ◌++◌, length, All, IfOk, OnOk, flat_map};
ghost use Rattle.std.specs.Fmt.{decimal};
ghost use Rattle.text_num.specs.Whole.{whole_text};
ghost use Rattle.candidate_tables.specs.CandidateTable as candidate;
ghost use Rattle.point_tables.specs.PointTable as point;
ghost use Rattle.plan_report.specs.RowsText.{numbered, component_text, unknown_line, unknown_text, entry_text, row_text, candidate_text, rows_text};

use crate::numbers::put_number;
use candidate_tables::Candidates;
use geo_base::NoMemory;
use geo_model::{Candidate, Component, Network, Row, Unknown};
use limit_lines::put_count;
use point_tables::{Name, Points};
use std::alloc::Global;

/// The word of a component.
fn component_word(component: Component) -> &'static [u8]
    ensures { result.now ≡ component_text component }
{
    match component {
        Component::X => b"x",
        Component::Y => b"y",
        Component::Z => b"z",
        Component::Turn => b"turn",
    }
}

/// Appends the line of an unknown.
fn put_unknown(
    text: &mut Vec<u8>,
    name: &Name,
    number: u64,
    component: Component,
) -> Result<(), NoMemory>
    ensures { OnOk result (text.new.items ≡ text.old.items ++ unknown_line name.now number component) }
{
    text.extend_from_slice(b"unknown,")?;
    put_count(text, number)?;
    text.extend_from_slice(b",")?;
    text.extend_from_slice(name.bytes())?;
    text.extend_from_slice(b",")?;
    text.extend_from_slice(component_word(component))?;
    text.extend_from_slice(b"\n")?;
    Ok(())
}

/// Appends the lines of the unknowns.
fn put_unknowns(text: &mut Vec<u8>, points: &Points, unknowns: &[Unknown]) -> Result<(), NoMemory>
    requires inside { All (λ unknown. unknown.point < length points.now) unknowns.now }
    ensures { OnOk result (text.new.items ≡ text.old.items ++ numbered (unknown_text (point.point_names points.now)) 0 unknowns.now) }
{
    for (number, unknown) in unknowns.iter().enumerate() {
        let name = &points.get(unknown.point).name;
        put_unknown(text, name, number as u64, unknown.component)?;
    }
    Ok(())
}

/// Appends an entry of a row.
fn put_entry(text: &mut Vec<u8>, column: u32, coefficient: i64) -> Result<(), NoMemory>
    ensures { OnOk result (text.new.items ≡ text.old.items ++ entry_text (column, coefficient)) }
{
    text.extend_from_slice(b",")?;
    put_count(text, u64::from(column))?;
    text.extend_from_slice(b":")?;
    put_number(text, coefficient)
}

/// Appends the entries of a row.
fn put_entries(text: &mut Vec<u8>, entries: &[(u32, i64)]) -> Result<(), NoMemory>
    ensures { OnOk result (text.new.items ≡ text.old.items ++ flat_map entry_text entries.now) }
{
    for (column, coefficient) in entries {
        put_entry(text, *column, *coefficient)?;
    }
    Ok(())
}

/// Appends the line of a row of the candidate of this name.
fn put_row(text: &mut Vec<u8>, name: &Name, number: u64, row: &Row) -> Result<(), NoMemory>
    ensures { OnOk result (text.new.items ≡ text.old.items ++ row_text name.now number row.now) }
{
    text.extend_from_slice(b"row,")?;
    text.extend_from_slice(name.bytes())?;
    text.extend_from_slice(b",")?;
    put_count(text, number)?;
    text.extend_from_slice(b",")?;
    put_number(text, row.weight())?;
    put_entries(text, row.entries())?;
    text.extend_from_slice(b"\n")?;
    Ok(())
}

/// Appends the lines of the rows of the candidate of this name.
fn put_rows(text: &mut Vec<u8>, name: &Name, rows: &[Row]) -> Result<(), NoMemory>
    ensures { OnOk result (text.new.items ≡ text.old.items ++ numbered (row_text name.now) 1 rows.now) }
{
    for (k, row) in rows.iter().enumerate() {
        put_row(text, name, k as u64 + 1, row)?;
    }
    Ok(())
}

/// Appends the lines of the rows of all candidates.
fn put_candidates(
    text: &mut Vec<u8>,
    names: &Candidates,
    candidates: &[Candidate],
) -> Result<(), NoMemory>
    requires named { length candidates.now ≡ length names.now }
    requires few { length candidates.now ≤ 256 }
    ensures { OnOk result (text.new.items ≡ text.old.items ++ numbered (candidate_text (candidate.candidate_names names.now)) 0 candidates.now) }
{
    for (number, candidate) in candidates.iter().enumerate() {
        let name = &names.get(number as u32).name;
        put_rows(text, name, candidate.rows.as_slice())?;
    }
    Ok(())
}

/// The unknowns of a network, `unknown,NUMBER,POINT,PART`, and the weighted rows of its candidates,
/// `row,NAME,ROW,WEIGHT` with `,COLUMN:COEFFICIENT` for each entry, each a line with an LF. Unknowns
/// and columns are counted from 0, the rows of a candidate from 1. A coefficient is 10000 times the
/// change of the observation in millimetres or cc by a millimetre or cc of the unknown, and a weight
/// is 10^8 over the square of the standard deviation in hundredths. The network is one of these
/// tables: its unknowns name points of the first, and it has the candidates of the second. Refused
/// for want of memory alone. The form of the text is this project's own.
pub fn rows_text(
    alloc: Global,
    points: &Points,
    candidates: &Candidates,
    network: &Network,
) -> Result<Vec<u8>, NoMemory>
    requires points { All (λ unknown. unknown.point < length points.now) network.now.unknowns }
    requires candidates { length network.now.candidates ≡ length candidates.now }
    ensures { IfOk result (λ text. text.items ≡ rows_text (point.point_names points.now) (candidate.candidate_names candidates.now) network.now) }
{
    let mut text = Vec::new(alloc);
    put_unknowns(&mut text, points, network.unknowns())?;
    put_candidates(&mut text, candidates, network.candidates())?;
    Ok(text)
}
