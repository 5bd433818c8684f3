//! Runs over a network of 64 unknowns, 256 candidates and 512 rows: as many as there may be.
use crate::fixtures::{
    CANDIDATE_HEADER, CHECK, OLD_LOG, PLAN, POINT_HEADER, ROWS, expect_accepted, expect_report,
    run, shelf_of,
};
use shelf_io::{MemShelf, MemSink};
use std::alloc::Global;
use std::test::Fail;

/// A fixed point, 21 points that are new in plane and height, and one that is new in height and that no
/// candidate reaches.
fn largest_points(alloc: Global) -> Result<Vec<u8>, Fail> {
    let mut bytes = POINT_HEADER.as_bytes().to_vec(alloc)?;
    bytes.extend_from_slice(b"F1,0.000,0.000,0.000,fixed,fixed\nh,,,1.000,,1.0\n")?;
    for number in 0..21u32 {
        let record = format!(in alloc; "n{number},{number}00.000,50.000,10.000,5.0,8.0\n")?;
        bytes.extend_from_slice(record.as_bytes())?;
    }
    Ok(bytes)
}

/// 128 vectors and as many levels to the new points in turn.
fn largest_candidates(alloc: Global) -> Result<Vec<u8>, Fail> {
    let mut bytes = CANDIDATE_HEADER.as_bytes().to_vec(alloc)?;
    for number in 0..128u32 {
        let to = number % 21;
        let vector = format!(in alloc; "g{number},vector,F1,n{to},,5.00,8.00,5\n")?;
        bytes.extend_from_slice(vector.as_bytes())?;
        let level = format!(in alloc; "l{number},level,F1,n{to},,1.00,,7\n")?;
        bytes.extend_from_slice(level.as_bytes())?;
    }
    Ok(bytes)
}

/// A shelf with the largest tables, and an old log.
fn largest_shelf(alloc: Global) -> Result<MemShelf, Fail> {
    let points = largest_points(alloc)?;
    let candidates = largest_candidates(alloc)?;
    shelf_of(alloc, (points.as_slice(), candidates.as_slice()), OLD_LOG)
}

// The first unknowns and the last two rows, as another program lists them.
const FIRST: &[u8] = b"unknown,0,h,z\nunknown,1,n0,x\nunknown,2,n0,y\nunknown,3,n0,z\n";

const LAST: &[u8] = b"\nrow,g127,3,156,6:10000\nrow,l127,1,10000,6:10000\n";

#[test]
fn the_largest_network_has_64_unknowns_and_512_rows(rt: HostRuntime) -> Result<(), Fail> {
    let alloc = rt.alloc();
    let mut shelf = largest_shelf(alloc)?;
    let mut out = MemSink::new(alloc, Vec::new(alloc));
    assert_eq!(rt; run(&rt, alloc, &mut shelf, ROWS, &mut out), 0);
    assert!(rt; out.bytes().starts_with(FIRST));
    assert!(rt; out.bytes().ends_with(LAST));
    let lines = out.bytes().iter().filter(|byte| **byte == b'\n').count();
    assert_eq!(rt; lines, 64 + 512);
    Ok(())
}

#[test]
fn the_largest_network_is_planned_and_checked(rt: HostRuntime) -> Result<(), Fail> {
    let alloc = rt.alloc();
    let mut shelf = largest_shelf(alloc)?;
    let plan = (1, "no plan\nlog,", "\nbound none\n");
    expect_report(&rt, alloc, &mut shelf, PLAN, plan);
    expect_accepted(&rt, alloc, &mut shelf, CHECK, "\nbound none\n");
    Ok(())
}

/// 32 candidates are taken, as many as can be taken back.
fn takes(alloc: Global) -> Result<Vec<u8>, Fail> {
    let mut script = Vec::new(alloc);
    for number in 0..32u32 {
        let line = format!(in alloc; "take g{number}\n")?;
        script.extend_from_slice(line.as_bytes())?;
    }
    Ok(script)
}

/// So many changes are taken back.
fn put_undos(script: &mut Vec<u8>, count: u32) -> Result<(), Fail> {
    for _undo in 0..count {
        script.extend_from_slice(b"undo\n".as_slice())?;
    }
    Ok(())
}

#[test]
fn the_largest_network_takes_32_changes_back(rt: HostRuntime) -> Result<(), Fail> {
    let alloc = rt.alloc();
    let mut shelf = largest_shelf(alloc)?;
    let mut script = takes(alloc)?;
    put_undos(&mut script, 33)?;
    shelf.put_file("s.txt", script.as_slice())?;
    let mut out = MemSink::new(alloc, Vec::new(alloc));
    let line = "geoplan trial p.csv c.csv 0 s.txt";
    assert_eq!(rt; run(&rt, alloc, &mut shelf, line, &mut out), 0);
    assert!(rt; out.bytes().starts_with(b"ok\nok\n"));
    assert!(rt; out.bytes().ends_with(b"ok\nnothing to undo\n"));
    assert_eq!(rt; out.bytes().len(), 64 * 3 + 16);
    Ok(())
}
