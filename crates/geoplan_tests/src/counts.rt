//! Tables of many records, networks of many unknowns and rows, and a deep log.
use crate::fixtures::{
    CANDIDATE_HEADER, CHECK, HEIGHTS, OLD_LOG, PLAN, POINT_HEADER, ROWS, SPACE_POINTS, expect,
    expect_reading, expect_report, run, shelf_of, table_of,
};
use shelf_io::MemSink;
use std::alloc::Global;
use std::test::Fail;

/// So many levels of 0.10 mm to the new height, each for 1000000000.
fn many_levels(alloc: Global, count: u32) -> Result<Vec<u8>, Fail> {
    let mut bytes = CANDIDATE_HEADER.as_bytes().to_vec(alloc)?;
    for number in 0..count {
        let record = format!(in alloc; "l{number},level,A,H,,0.10,,1000000000\n")?;
        bytes.extend_from_slice(record.as_bytes())?;
    }
    Ok(bytes)
}

/// So many vectors to the new point in space.
fn many_vectors(alloc: Global, count: u32) -> Result<Vec<u8>, Fail> {
    let mut bytes = CANDIDATE_HEADER.as_bytes().to_vec(alloc)?;
    for number in 0..count {
        let record = format!(in alloc; "g{number},vector,F1,P,,5.00,8.00,1\n")?;
        bytes.extend_from_slice(record.as_bytes())?;
    }
    Ok(bytes)
}

/// So many fixed heights.
fn many_points(alloc: Global, count: u32) -> Result<Vec<u8>, Fail> {
    let mut bytes = POINT_HEADER.as_bytes().to_vec(alloc)?;
    for number in 0..count {
        let record = format!(in alloc; "p{number},,,1,,fixed\n")?;
        bytes.extend_from_slice(record.as_bytes())?;
    }
    Ok(bytes)
}

/// So many points whose plane and height are new.
fn new_points(alloc: Global, count: u32) -> Result<Vec<u8>, Fail> {
    let mut bytes = POINT_HEADER.as_bytes().to_vec(alloc)?;
    for number in 0..count {
        let record = format!(in alloc; "n{number},1,2,3,5.0,5.0\n")?;
        bytes.extend_from_slice(record.as_bytes())?;
    }
    Ok(bytes)
}

#[test]
fn a_thousand_points_are_accepted(rt: HostRuntime) -> Result<(), Fail> {
    let alloc = rt.alloc();
    for (count, status, printed) in [(1000, 0, ""), (1001, 3, "table,points,1002,TooMany\n")] {
        let points = many_points(alloc, count)?;
        let tables = (points.as_slice(), CANDIDATE_HEADER.as_bytes());
        let mut shelf = shelf_of(alloc, tables, OLD_LOG)?;
        expect_reading(&rt, alloc, &mut shelf, ROWS, (status, printed));
    }
    Ok(())
}

#[test]
fn too_many_are_refused(rt: HostRuntime) -> Result<(), Fail> {
    let alloc = rt.alloc();
    let points = new_points(alloc, 22)?;
    let tables = (points.as_slice(), CANDIDATE_HEADER.as_bytes());
    let mut shelf = shelf_of(alloc, tables, OLD_LOG)?;
    let unknowns = (3, "table,network,66,TooManyUnknowns\n");
    expect_reading(&rt, alloc, &mut shelf, PLAN, unknowns);
    let points = table_of(alloc, POINT_HEADER, SPACE_POINTS)?;
    let candidates = many_vectors(alloc, 171)?;
    let tables = (points.as_slice(), candidates.as_slice());
    let mut shelf = shelf_of(alloc, tables, OLD_LOG)?;
    let rows = (3, "table,network,513,TooManyRows\n");
    expect_reading(&rt, alloc, &mut shelf, PLAN, rows);
    let points = table_of(alloc, POINT_HEADER, HEIGHTS)?;
    let candidates = many_levels(alloc, 257)?;
    let tables = (points.as_slice(), candidates.as_slice());
    let mut shelf = shelf_of(alloc, tables, OLD_LOG)?;
    let records = (3, "table,candidates,258,TooMany\n");
    expect_reading(&rt, alloc, &mut shelf, PLAN, records);
    Ok(())
}

#[test]
fn the_largest_networks_are_accepted(rt: HostRuntime) -> Result<(), Fail> {
    let alloc = rt.alloc();
    let points = new_points(alloc, 21)?;
    let tables = (points.as_slice(), CANDIDATE_HEADER.as_bytes());
    let mut shelf = shelf_of(alloc, tables, OLD_LOG)?;
    let none = (1, "no plan\nlog,", "\nbound none\n");
    expect_report(&rt, alloc, &mut shelf, PLAN, none);
    let points = table_of(alloc, POINT_HEADER, SPACE_POINTS)?;
    let candidates = many_vectors(alloc, 170)?;
    let tables = (points.as_slice(), candidates.as_slice());
    let mut shelf = shelf_of(alloc, tables, b"geoplan-log 1\nc\n")?;
    let accepted = (0, "accepted\nlog,0,1,0,0,0\nbound 0\n");
    expect(&rt, alloc, &mut shelf, CHECK, accepted);
    Ok(())
}

const LOOSE_HEIGHTS: &str = "A,,,100.000,,fixed\nH,,,101.000,,100.0\n";

#[test]
fn one_of_256_levels_is_taken(rt: HostRuntime) -> Result<(), Fail> {
    let alloc = rt.alloc();
    let points = table_of(alloc, POINT_HEADER, LOOSE_HEIGHTS)?;
    let levels = many_levels(alloc, 256)?;
    let tables = (points.as_slice(), levels.as_slice());
    let mut shelf = shelf_of(alloc, tables, OLD_LOG)?;
    let mut out = MemSink::new(alloc, Vec::new(alloc));
    let status = run(&rt, alloc, &mut shelf, PLAN, &mut out);
    assert_eq!(rt; status, 0);
    assert!(rt; out.bytes().starts_with(b"plan\ncost 1000000000\ntake,l"));
    assert!(rt; out.bytes().ends_with(b"\nbound 1000000000\n"));
    assert!(rt; out.bytes().len() < 160);
    Ok(())
}

/// So many lines of a leaf.
fn put_leaves(log: &mut Vec<u8>, leaves: u32) -> Result<(), Fail> {
    for _leaf in 0..leaves {
        log.extend_from_slice(b"c\n".as_slice())?;
    }
    Ok(())
}

/// The splits of 256 levels one after another, and so many leaves.
fn deep_log(alloc: Global, leaves: u32) -> Result<Vec<u8>, Fail> {
    let mut log = b"geoplan-log 1\n".as_slice().to_vec(alloc)?;
    for candidate in 0..256u32 {
        let line = format!(in alloc; "s {candidate}\n")?;
        log.extend_from_slice(line.as_bytes())?;
    }
    put_leaves(&mut log, leaves)?;
    Ok(log)
}

#[test]
fn a_log_of_256_splits_has_257_leaves(rt: HostRuntime) -> Result<(), Fail> {
    let alloc = rt.alloc();
    let points = table_of(alloc, POINT_HEADER, LOOSE_HEIGHTS)?;
    let levels = many_levels(alloc, 256)?;
    for (leaves, status, printed) in [
        (257, 0, "accepted\nlog,256,257,0,0,0\nbound 0\n"),
        (256, 8, "refused,514,Short\n"),
        (258, 8, "refused,515,Extra\n"),
    ] {
        let log = deep_log(alloc, leaves)?;
        let tables = (points.as_slice(), levels.as_slice());
        let mut shelf = shelf_of(alloc, tables, log.as_slice())?;
        expect(&rt, alloc, &mut shelf, CHECK, (status, printed));
    }
    Ok(())
}
