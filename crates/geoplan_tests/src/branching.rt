//! A network whose plan is found soon only where the search branches on what is missing.
use crate::fixtures::{
    CANDIDATE_HEADER, CHECK, OLD_LOG, PLAN, POINT_HEADER, expect_accepted, run, shelf_of, table_of,
};
use shelf_io::MemSink;
use std::alloc::Global;
use std::test::Fail;

const CROSSED_POINTS: &str =
    "W,0.000,0.000,,fixed,\nS,100.000,-100.000,,fixed,\nP,100.000,0.000,,1.0,\n";

/// Adds so many distances from a point to the new one, with this deviation and price.
fn put_distances(
    alloc: Global,
    records: &mut Vec<u8>,
    count: u32,
    from: &str,
    rest: &str,
) -> Result<(), Fail> {
    for number in 0..count {
        let record = format!(in alloc; "{from}{number},distance,{from},P,,{rest}\n")?;
        records.extend_from_slice(record.as_bytes())?;
    }
    Ok(())
}

#[test]
fn many_cheap_distances_one_way_and_few_dear_ones_the_other(rt: HostRuntime) -> Result<(), Fail> {
    let alloc = rt.alloc();
    let points = table_of(alloc, POINT_HEADER, CROSSED_POINTS)?;
    let mut candidates = CANDIDATE_HEADER.as_bytes().to_vec(alloc)?;
    put_distances(alloc, &mut candidates, 14, "W", "1.00,,5")?;
    put_distances(alloc, &mut candidates, 4, "S", "1.50,,40")?;
    let tables = (points.as_slice(), candidates.as_slice());
    let mut shelf = shelf_of(alloc, tables, OLD_LOG)?;
    let mut out = MemSink::new(alloc, Vec::new(alloc));
    let status = run(&rt, alloc, &mut shelf, PLAN, &mut out);
    assert!(rt; out.bytes().starts_with(b"plan\ncost 125\ntake,W"));
    assert!(rt; out.bytes().ends_with(b"\nbound 125\n"));
    assert_eq!(rt; status, 0);
    match shelf.file("l.log") {
        Some(log) => assert!(rt; log.len() < 10000),
        None => assert!(rt; false),
    }
    expect_accepted(&rt, alloc, &mut shelf, CHECK, "\nbound 125\n");
    Ok(())
}
