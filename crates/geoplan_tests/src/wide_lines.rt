//! A line of 64 heights, and a log whose one line moves all of them.
use crate::fixtures::{CANDIDATE_HEADER, CHECK, POINT_HEADER, expect_accepted, shelf_of};
use std::alloc::Global;
use std::test::Fail;

// The records of a line of heights, with a level to each from the one before, and the displacement of
// each by one more than the one before.
#[derive(Drop)]
struct HeightLine {
    points: Vec<u8>,
    candidates: Vec<u8>,
    log: Vec<u8>,
}

// A line without heights: a fixed one, and a log that breaks limit 63 by 64 pairs.
fn no_heights(alloc: Global) -> Result<HeightLine, Fail> {
    let mut points = POINT_HEADER.as_bytes().to_vec(alloc)?;
    points.extend_from_slice(b"H0,,,0.000,,fixed\n")?;
    Ok(HeightLine {
        points,
        candidates: CANDIDATE_HEADER.as_bytes().to_vec(alloc)?,
        log: b"geoplan-log 1\nx 63 64".to_vec(alloc)?,
    })
}

// Adds a height to a line, whose number is one more than that of its unknown.
fn add_height(alloc: Global, line: &mut HeightLine, unknown: u8) -> Result<(), Fail> {
    let height = u32::from(unknown) + 1;
    let point = format!(in alloc; "H{height},,,0.000,,1.0\n")?;
    line.points.extend_from_slice(point.as_bytes())?;
    let level = format!(in alloc; "l{height},level,H{unknown},H{height},,0.50,,1\n")?;
    line.candidates.extend_from_slice(level.as_bytes())?;
    let pair = format!(in alloc; " {unknown} {height}")?;
    line.log.extend_from_slice(pair.as_bytes())?;
    Ok(())
}

#[test]
fn a_displacement_of_64_pairs_is_accepted(rt: HostRuntime) -> Result<(), Fail> {
    let alloc = rt.alloc();
    let mut line = no_heights(alloc)?;
    for unknown in 0..64u8 {
        add_height(alloc, &mut line, unknown)?;
    }
    line.log.extend_from_slice(b"\n")?;
    let tables = (line.points.as_slice(), line.candidates.as_slice());
    let mut shelf = shelf_of(alloc, tables, line.log.as_slice())?;
    expect_accepted(&rt, alloc, &mut shelf, CHECK, "log,0,0,0,1,0\nbound none\n");
    Ok(())
}
