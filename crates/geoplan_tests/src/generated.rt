//! Tables that are generated from a seed, and the search of their network.
use crate::fixtures::{
    HEIGHTS, OLD_LOG, ONE_LEVEL, expect, expect_accepted, expect_report, failing_shelf, run,
    shelf_with,
};
use shelf_io::{MemShelf, MemSink};
use std::alloc::Global;
use std::process::Abort;
use std::test::Fail;

const GEN: &str = "geoplan gen 7 p.csv c.csv";

// The tables of the seed 7, as another program generates them.
const POINTS: &str =
    "name,x,y,z,plane,height\nF1,1065.278,1063.231,106.753,fixed,fixed\nF2,1018.673,5045.545,107.219,fixed,fixed\nF3,5089.864,1015.764,121.739,fixed,fixed\nF4,5085.686,5012.195,103.075,fixed,fixed\nN1,2093.632,2143.280,145.949,7.9,11.7\nN2,2094.899,4026.796,123.951,7.9,11.4\nN3,3105.654,3178.098,148.653,7.5,11.3\nN4,4177.945,2109.893,123.632,7.9,11.0\nN5,4053.350,4076.875,100.173,8.0,11.8\n";

const CANDIDATES: &str =
    "name,kind,from,to,to2,sd,sdh,price\nv1,vector,F4,N1,,10.00,15.00,52\nv2,vector,F2,N1,,10.00,15.00,45\nv3,vector,F4,N2,,10.00,15.00,50\nv4,vector,F2,N2,,10.00,15.00,40\nv5,vector,F1,N3,,10.00,15.00,44\nv6,vector,F2,N3,,10.00,15.00,46\nv7,vector,F3,N4,,10.00,15.00,54\nv8,vector,F2,N4,,10.00,15.00,57\nv9,vector,F1,N5,,10.00,15.00,51\nv10,vector,F4,N5,,10.00,15.00,48\nd1,distance,N1,F1,,8.00,,156\nd2,distance,N2,F4,,8.00,,159\nd3,distance,N3,F2,,8.00,,163\nd4,distance,N4,F1,,8.00,,155\nd5,distance,N5,F2,,8.00,,150\nd6,distance,N1,N3,,8.00,,183\nr1,direction,N2,F1,,10.00,,152\nr2,direction,N2,F4,,10.00,,188\nr3,direction,N4,F2,,10.00,,171\nr4,direction,N4,F3,,10.00,,198\na1,angle,N1,F2,F3,15.00,,160\na2,angle,N3,F1,F4,15.00,,173\na3,angle,N4,F1,F4,15.00,,158\na4,angle,N5,F2,F3,15.00,,165\nl1,level,F1,N1,,10.00,,118\nl2,level,N1,N2,,10.00,,131\nl3,level,N2,N3,,10.00,,100\nl4,level,F4,N5,,10.00,,134\n";

// Its unknowns and the first of its rows, as that program lists them.
const UNKNOWNS: &[u8] =
    b"unknown,0,N1,x\nunknown,1,N1,y\nunknown,2,N1,z\nunknown,3,N2,x\nunknown,4,N2,y\nunknown,5,N2,z\nunknown,6,N3,x\nunknown,7,N3,y\nunknown,8,N3,z\nunknown,9,N4,x\nunknown,10,N4,y\nunknown,11,N4,z\nunknown,12,N5,x\nunknown,13,N5,y\nunknown,14,N5,z\nunknown,15,N2,turn\nunknown,16,N4,turn\nrow,v1,1,100,0:10000\n";

/// What stands under a name.
fn held<'a>(shelf: &'a MemShelf, name: &str) -> &'a [u8] {
    match shelf.file(name) {
        Some(bytes) => bytes,
        None => b"",
    }
}

#[test]
fn tables_are_written(rt: HostRuntime) -> Result<(), Fail> {
    let alloc = rt.alloc();
    let mut shelf = shelf_with(alloc, HEIGHTS, ONE_LEVEL)?;
    expect(&rt, alloc, &mut shelf, GEN, (0, "written\n"));
    assert_eq!(rt; held(&shelf, "p.csv"), POINTS.as_bytes());
    assert_eq!(rt; held(&shelf, "c.csv"), CANDIDATES.as_bytes());
    assert_eq!(rt; held(&shelf, "l.log"), OLD_LOG);
    Ok(())
}

// A seed that begins with zeros is the number that it is, and a shelf may hold nothing before.
#[test]
fn a_seed_has_up_to_six_digits(rt: HostRuntime) -> Result<(), Fail> {
    let alloc = rt.alloc();
    let mut shelf = MemShelf::new(alloc, Vec::new(alloc));
    let words = "geoplan gen 000007 p.csv c.csv";
    expect(&rt, alloc, &mut shelf, words, (0, "written\n"));
    assert_eq!(rt; held(&shelf, "p.csv"), POINTS.as_bytes());
    Ok(())
}

// The ends of the tables of the greatest seed, as that program generates them.
const LAST_POINT: &[u8] = b"\nN5,4175.827,4131.948,104.666,7.9,11.2\n";

const LAST_CANDIDATE: &[u8] = b"\nl4,level,F4,N5,,10.00,,100\n";

#[test]
fn the_greatest_seed_is_generated_and_searched(rt: HostRuntime) -> Result<(), Fail> {
    let alloc = rt.alloc();
    let mut shelf = shelf_with(alloc, HEIGHTS, ONE_LEVEL)?;
    let words = "geoplan gen 999999 p.csv c.csv";
    expect(&rt, alloc, &mut shelf, words, (0, "written\n"));
    assert!(rt; held(&shelf, "p.csv").ends_with(LAST_POINT));
    assert!(rt; held(&shelf, "c.csv").ends_with(LAST_CANDIDATE));
    let out = benched(&rt, alloc, "geoplan bench 999999", (Vec::new(alloc), 0))?;
    assert!(rt; out.bytes().starts_with(b"seed 999999\ncandidates 28\n"));
    assert!(rt; out.bytes().ends_with(b"\nbound 470\n"));
    Ok(())
}

#[test]
fn a_generated_network_has_17_unknowns_and_48_rows(rt: HostRuntime) -> Result<(), Fail> {
    let alloc = rt.alloc();
    let mut shelf = shelf_with(alloc, HEIGHTS, ONE_LEVEL)?;
    expect(&rt, alloc, &mut shelf, GEN, (0, "written\n"));
    let mut out = MemSink::new(alloc, Vec::new(alloc));
    let status = run(&rt, alloc, &mut shelf, "geoplan rows p.csv c.csv", &mut out);
    assert_eq!(rt; status, 0);
    assert!(rt; out.bytes().starts_with(UNKNOWNS));
    let lines = out.bytes().iter().filter(|byte| **byte == b'\n').count();
    assert_eq!(rt; lines, 17 + 48);
    Ok(())
}

/// The beginnings of the two tables that stand where a call of the shelf fails: how many bytes of each,
/// and whether the old table stands.
const FAILING: [(u64, Option<usize>, Option<usize>); 4] = [
    (1, None, None),
    (2, Some(189), None),
    (3, Some(378), None),
    (4, Some(378), Some(439)),
];

/// Asserts that a name holds so many bytes of a table, or what it held.
fn expect_begun(
    rt: &impl Abort,
    shelf: &MemShelf,
    (name, table): (&str, &str),
    begun: Option<usize>,
    old: &[u8],
) {
    match begun {
        None => assert_eq!(rt; held(shelf, name), old),
        Some(count) => {
            assert!(rt; count <= table.len());
            assert_eq!(rt; held(shelf, name), &table.as_bytes()[..count]);
        }
    }
}

#[test]
fn a_table_is_cut_short_where_a_call_fails(rt: HostRuntime) -> Result<(), Fail> {
    let alloc = rt.alloc();
    for (call, points, candidates) in FAILING {
        let failing = vec![in alloc; call]?;
        let mut shelf = failing_shelf(alloc, (b"p", b"c"), OLD_LOG, failing)?;
        expect(&rt, alloc, &mut shelf, GEN, (6, ""));
        expect_begun(&rt, &shelf, ("p.csv", POINTS), points, b"p");
        expect_begun(&rt, &shelf, ("c.csv", CANDIDATES), candidates, b"c");
        assert_eq!(rt; held(&shelf, "l.log"), OLD_LOG);
    }
    Ok(())
}

#[test]
fn tables_are_whole_where_the_put_fails(rt: HostRuntime) -> Result<(), Fail> {
    let alloc = rt.alloc();
    let mut shelf = shelf_with(alloc, HEIGHTS, ONE_LEVEL)?;
    let mut out = MemSink::new(alloc, vec![in alloc; 1]?);
    assert_eq!(rt; run(&rt, alloc, &mut shelf, GEN, &mut out), 6);
    assert_eq!(rt; out.bytes(), b"writ".as_slice());
    assert_eq!(rt; held(&shelf, "p.csv"), POINTS.as_bytes());
    assert_eq!(rt; held(&shelf, "c.csv"), CANDIDATES.as_bytes());
    Ok(())
}

// The summary of the seed 7 before and behind the counts of the lines of its log, and its report
// likewise, by another program.
const SUMMARY: &str =
    "seed 7\ncandidates 28\nunknowns 17\nrows 48\nlimits 58\nplan\ncost 487\nlog,";

const BOUND: &str = "\nbound 487\n";

/// Runs `bench` over a shelf of which each call would fail, and a sink whose puts of these numbers
/// fail; asserts its status and that no call was made.
fn benched(
    rt: &impl Abort,
    alloc: Global,
    line: &str,
    (failing, status): (Vec<u64>, u8),
) -> Result<MemSink, Fail> {
    let mut shelf = failing_shelf(alloc, (b"p", b"c"), OLD_LOG, vec![in alloc; 1, 2, 3]?)?;
    let mut out = MemSink::new(alloc, failing);
    assert_eq!(rt; run(rt, alloc, &mut shelf, line, &mut out), status);
    assert_eq!(rt; held(&shelf, "p.csv"), b"p".as_slice());
    assert_eq!(rt; held(&shelf, "c.csv"), b"c".as_slice());
    assert_eq!(rt; held(&shelf, "l.log"), OLD_LOG);
    Ok(out)
}

// Whichever log the search chooses, it has lines of cuts and of dual bounds.
#[test]
fn a_bench_says_the_same_twice(rt: HostRuntime) -> Result<(), Fail> {
    let alloc = rt.alloc();
    let first = benched(&rt, alloc, "geoplan bench 7", (Vec::new(alloc), 0))?;
    let second = benched(&rt, alloc, "geoplan bench 007", (Vec::new(alloc), 0))?;
    assert_eq!(rt; first.bytes(), second.bytes());
    assert!(rt; first.bytes().starts_with(SUMMARY.as_bytes()));
    assert!(rt; first.bytes().ends_with(BOUND.as_bytes()));
    let mut counts = first.bytes().split(|byte| *byte == b',').skip(4);
    let cuts = counts.next().expect(&rt, "a count of lines of cuts");
    assert!(rt; !cuts.starts_with(b"0"));
    let duals = counts.next().expect(&rt, "a count of lines of dual bounds");
    assert!(rt; !duals.starts_with(b"0"));
    assert!(rt; counts.next().is_none());
    Ok(())
}

#[test]
fn a_summary_is_cut_short_where_the_put_fails(rt: HostRuntime) -> Result<(), Fail> {
    let alloc = rt.alloc();
    let out = benched(&rt, alloc, "geoplan bench 7", (vec![in alloc; 1]?, 6))?;
    assert!(rt; out.bytes().starts_with(b"seed 7\n"));
    assert!(rt; SUMMARY.as_bytes().starts_with(out.bytes()));
    Ok(())
}

#[test]
fn a_generated_network_is_planned_and_checked(rt: HostRuntime) -> Result<(), Fail> {
    let alloc = rt.alloc();
    let mut shelf = shelf_with(alloc, HEIGHTS, ONE_LEVEL)?;
    expect(&rt, alloc, &mut shelf, GEN, (0, "written\n"));
    let plan = "geoplan plan p.csv c.csv 200 l.log";
    expect_report(&rt, alloc, &mut shelf, plan, (0, "plan\ncost 487\n", BOUND));
    let check = "geoplan check p.csv c.csv 200 l.log";
    expect_accepted(&rt, alloc, &mut shelf, check, BOUND);
    Ok(())
}
