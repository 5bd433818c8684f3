//! Logs that `check` accepts and refuses.
use crate::fixtures::{
    CANDIDATE_HEADER, CHECK, CLOSER_HEIGHTS, HEIGHTS, ONE_LEVEL, POINT_HEADER, REDUNDANCY_LOG,
    TWO_LEVELS, expect, shelf_of, table_of,
};
use std::alloc::Global;
use std::process::Abort;
use std::test::Fail;

/// A thousandth more than two levels reach.
const REDUNDANT_CHECK: &str = "geoplan check p.csv c.csv 501 l.log";

// Second lines of a log of two levels, behind its head, and what is printed.
const SECOND_LINES: [(&str, &str); 28] = [
    ("s 2\n", "refused,2,Range\n"),
    ("s 9999999999999999999\n", "refused,2,Range\n"),
    ("p 3\n", "refused,2,Range\n"),
    ("s 10000000000000000000\n", "refused,2,Form\n"),
    ("s 00\n", "refused,2,Form\n"),
    ("s  0\n", "refused,2,Form\n"),
    ("s 0\r\n", "refused,2,Form\n"),
    ("\n", "refused,2,Form\n"),
    ("s 0", "refused,2,Form\n"),
    ("c", "refused,2,Form\n"),
    ("q 0\n", "refused,2,Form\n"),
    ("x 0 1 0 1\n", "refused,2,CutHolds\n"),
    ("x 0 1 1 1\n", "refused,2,Range\n"),
    ("x 1 1 0 1\n", "refused,2,Owner\n"),
    ("x 0 1 0\n", "refused,2,Form\n"),
    ("x 0 1 0 0\n", "refused,2,Range\n"),
    ("x 0 2 0 1 0 1\n", "refused,2,Range\n"),
    ("d 0 0\n", "refused,2,Range\n"),
    ("d 17592186044417 0\n", "refused,2,Range\n"),
    ("x 0 1 0 -0\n", "refused,2,Form\n"),
    ("d 1 65\n", "refused,2,Form\n"),
    ("p 1\n", "refused,2,Owner\n"),
    ("p 2\n", "refused,2,Owner\n"),
    ("p 0\n", "refused,2,NotRefuted\n"),
    ("", "refused,2,Short\n"),
    ("s 0\n", "refused,3,Short\n"),
    ("s 1\n", "refused,3,Short\n"),
    ("s 0\np 1\ns 0\n", "refused,4,NotOpen\n"),
];

/// Checks a log over two levels, and asserts that it stays.
fn expect_log(rt: &impl Abort, alloc: Global, log: &[u8], answer: (u8, &str)) -> Result<(), Fail> {
    let points = table_of(alloc, POINT_HEADER, HEIGHTS)?;
    let candidates = table_of(alloc, CANDIDATE_HEADER, TWO_LEVELS)?;
    let tables = (points.as_slice(), candidates.as_slice());
    let mut shelf = shelf_of(alloc, tables, log)?;
    expect(rt, alloc, &mut shelf, REDUNDANT_CHECK, answer);
    assert!(rt; shelf.file("l.log") == Some(log));
    Ok(())
}

#[test]
fn second_lines_are_refused(rt: HostRuntime) -> Result<(), Fail> {
    let alloc = rt.alloc();
    for (lines, printed) in &SECOND_LINES {
        let log = table_of(alloc, "geoplan-log 1\n", lines)?;
        expect_log(&rt, alloc, log.as_slice(), (8, printed))?;
    }
    Ok(())
}

// Whole logs of two levels, the status, and what is printed.
const LOGS: [(&[u8], u8, &str); 8] = [
    (REDUNDANCY_LOG, 0, "accepted\nlog,2,0,0,3,0\nbound none\n"),
    (
        b"geoplan-log 1\ns 0\np 1\ns 1\np 2\np 0\n",
        0,
        "accepted\nlog,2,0,3,0,0\nbound none\n",
    ),
    (
        b"geoplan-log 1\nc\n",
        0,
        "accepted\nlog,0,1,0,0,0\nbound 0\n",
    ),
    (
        b"geoplan-log 1\nd 1 0\n",
        0,
        "accepted\nlog,0,0,0,0,1\nbound 0\n",
    ),
    (
        b"geoplan-log 1\ns 0\np 1\ns 1\np 2\np 0\nc\n",
        8,
        "refused,7,Extra\n",
    ),
    (b"", 8, "refused,1,Form\n"),
    (b"geoplan-log 1", 8, "refused,1,Form\n"),
    (b"geoplan-log 1\r\nc\n", 8, "refused,1,Form\n"),
];

#[test]
fn logs_are_accepted_or_refused(rt: HostRuntime) -> Result<(), Fail> {
    for (log, status, printed) in &LOGS {
        expect_log(&rt, rt.alloc(), log, (*status, printed))?;
    }
    Ok(())
}

// Records of a points table, a log over one level, the status, and what is printed.
const LEAVES: [(&str, &str, u8, &str); 5] = [
    (
        CLOSER_HEIGHTS,
        "geoplan-log 1\np 0\n",
        0,
        "accepted\nlog,0,0,1,0,0\nbound none\n",
    ),
    (
        CLOSER_HEIGHTS,
        "geoplan-log 1\nc\n",
        0,
        "accepted\nlog,0,1,0,0,0\nbound 0\n",
    ),
    (CLOSER_HEIGHTS, "geoplan-log 1\np 0", 8, "refused,2,Form\n"),
    (HEIGHTS, "geoplan-log 1\np 0\n", 8, "refused,2,NotRefuted\n"),
    (
        HEIGHTS,
        "geoplan-log 1\ns 0\nc\np 0\n",
        0,
        "accepted\nlog,1,1,1,0,0\nbound 5\n",
    ),
];

#[test]
fn leaves_are_checked(rt: HostRuntime) -> Result<(), Fail> {
    let alloc = rt.alloc();
    let candidates = table_of(alloc, CANDIDATE_HEADER, ONE_LEVEL)?;
    for (points, log, status, printed) in &LEAVES {
        let points = table_of(alloc, POINT_HEADER, points)?;
        let tables = (points.as_slice(), candidates.as_slice());
        let mut shelf = shelf_of(alloc, tables, log.as_bytes())?;
        expect(&rt, alloc, &mut shelf, CHECK, (*status, printed));
    }
    Ok(())
}
