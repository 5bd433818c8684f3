//! Candidates tables with faults, and at their bounds.
use crate::fixtures::{
    CHECK, HEIGHTS, OLD_LOG, PLAN, POINT_HEADER, expect_reading, expect_report, shelf_of,
    shelf_with,
};
use std::test::Fail;

// Records of a candidates table over two heights, and the first fault of the table.
const FAULTS: [(&str, &str); 20] = [
    ("l1,level,A,H,A,1.00,,5\n", "table,candidates,2,Extra\n"),
    ("l1,level,A,H,,1.00,1.00,5\n", "table,candidates,2,Extra\n"),
    ("l1,level,A,A,,1.00,,5\n", "table,candidates,2,SamePoint\n"),
    ("l1,distance,A,H,,1.00,,5\n", "table,candidates,2,NoPlane\n"),
    (
        "l1,level,A,H,,1.00,,5\nd1,distance,A,H,,1.00,,5\n",
        "table,candidates,3,NoPlane\n",
    ),
    (
        "v1,vector,A,H,,1.00,1.00,5\n",
        "table,candidates,2,NoPlane\n",
    ),
    ("l1,level,A,H,,1.00,,1.5\n", "table,candidates,2,Number\n"),
    ("l1,level,A,H,,1.005,,5\n", "table,candidates,2,Number\n"),
    (
        "l1,level,A,H,,1.00,,1000000001\n",
        "table,candidates,2,Range\n",
    ),
    ("l1,level,A,H,,1.00,,-1\n", "table,candidates,2,Range\n"),
    ("l1,level,A,H,,100.01,,5\n", "table,candidates,2,Range\n"),
    ("l1,level,A,H,,0.09,,5\n", "table,candidates,2,Range\n"),
    ("l1,level,A,H,,0.09,,1.5\n", "table,candidates,2,Range\n"),
    ("z1,zenith,A,H,,1.00,,5\n", "table,candidates,2,Kind\n"),
    ("l1,Level,A,H,,1.00,,5\n", "table,candidates,2,Kind\n"),
    ("l1,level,A,B,,1.00,,5\n", "table,candidates,2,NoPoint\n"),
    ("l1,level,a,H,,1.00,,5\n", "table,candidates,2,NoPoint\n"),
    ("l1,level,A,H,,1.00,5\n", "table,candidates,2,Fields\n"),
    (",level,A,H,,1.00,,5\n", "table,candidates,2,Name\n"),
    (
        "l1,level,A,H,,1.00,,5\nl1,level,A,H,,1.00,,5\n",
        "table,candidates,3,Twice\n",
    ),
];

#[test]
fn candidates_are_refused(rt: HostRuntime) -> Result<(), Fail> {
    let alloc = rt.alloc();
    for (candidates, printed) in &FAULTS {
        let mut shelf = shelf_with(alloc, HEIGHTS, candidates)?;
        expect_reading(&rt, alloc, &mut shelf, PLAN, (3, printed));
    }
    Ok(())
}

// Records of both tables, and the first fault.
const LINES: [(&str, &str, &str); 7] = [
    (
        "A,0.000,0.000,,fixed,\nB,0.000,0.999,,5.0,\n",
        "d1,distance,A,B,,10.00,,5\n",
        "table,candidates,2,Near\n",
    ),
    (
        "A,0.000,0.000,,fixed,\nB,0.000,9.999,,5.0,\n",
        "r1,direction,A,B,,10.00,,5\n",
        "table,candidates,2,Near\n",
    ),
    (
        "A,5512345.678,3400000.000,,fixed,\nB,5612345.679,3400000.000,,5.0,\n",
        "d1,distance,A,B,,10.00,,5\n",
        "table,candidates,2,Far\n",
    ),
    (
        "A,0,0,,fixed,\nB,0,10,,5.0,\nC,0,9.999,,5.0,\n",
        "a1,angle,A,B,C,10.00,,5\n",
        "table,candidates,2,Near\n",
    ),
    (
        "A,0,0,,fixed,\nB,0,100000.001,,5.0,\nC,0,9.999,,5.0,\n",
        "a1,angle,A,B,C,10.00,,5\n",
        "table,candidates,2,Far\n",
    ),
    (
        "A,,,100.000,,fixed\nH,,,101.000,,1.0\nB,0.000,0.000,,fixed,\n",
        "l1,level,A,B,,1.00,,5\n",
        "table,candidates,2,NoHeight\n",
    ),
    (
        "A,,,,,fixed\n",
        "z1,zenith,A,H,,1.00,,5\n",
        "table,points,2,Missing\n",
    ),
];

#[test]
fn lines_are_refused(rt: HostRuntime) -> Result<(), Fail> {
    let alloc = rt.alloc();
    for (points, candidates, printed) in &LINES {
        let mut shelf = shelf_with(alloc, points, candidates)?;
        expect_reading(&rt, alloc, &mut shelf, CHECK, (3, printed));
    }
    Ok(())
}

// Records of both tables, and the report of the plan of the least cost before the counts of its log's
// lines and behind them.
const ACCEPTED: [(&str, &str, &str, &str); 7] = [
    (
        HEIGHTS,
        "l1,level,A,H,,1.00,,5.000\n",
        "plan\ncost 5\ntake,l1\nheight,H,1.0,1.0\nredundancy,l1,1,0.000,0.000\nlog,",
        "\nbound 5\n",
    ),
    (
        HEIGHTS,
        "A,level,H,A,,1.00,,5\n",
        "plan\ncost 5\ntake,A\nheight,H,1.0,1.0\nredundancy,A,1,0.000,0.000\nlog,",
        "\nbound 5\n",
    ),
    (
        "A,0.000,0,+100,fixed,fixed\nH,,,101.000,,100.0\n",
        "l1,level,A,H,,100.00,,1000000000\n",
        "plan\ncost 1000000000\ntake,l1\nheight,H,100.0,100.0\nredundancy,l1,1,0.000,0.000\nlog,",
        "\nbound 1000000000\n",
    ),
    (
        "A,,,100.000,,fixed\nH,,,101.000,,0.1\n",
        "l1,level,A,H,,0.10,,0\n",
        "plan\ncost 0\ntake,l1\nheight,H,0.1,0.1\nredundancy,l1,1,0.000,0.000\nlog,",
        "\nbound 0\n",
    ),
    (
        "A,,,1,,fixed\nB,,,2,,fixed\nH,,,3,,2.0\n",
        "l1,level,A,B,,1.00,,1\nl2,level,H,B,,2.00,,2\n",
        "plan\ncost 2\ntake,l2\nheight,H,2.0,2.0\nredundancy,l2,1,0.000,0.000\nlog,",
        "\nbound 2\n",
    ),
    (
        "A,,,100.000,,fixed\nH,,,101.000,,fixed\n",
        "l1,level,A,H,,1.00,,5\n",
        "plan\ncost 0\nlog,",
        "\nbound 0\n",
    ),
    (
        "A,0.000,0.000,100.000,fixed,fixed\nB,0.000,50.000,,fixed,\nH,,,101.000,,1.0\n",
        "l1,level,A,H,,1.00,,5\nd1,distance,A,B,,1.00,,5\n",
        "plan\ncost 5\ntake,l1\nheight,H,1.0,1.0\nredundancy,l1,1,0.000,0.000\nlog,",
        "\nbound 5\n",
    ),
];

#[test]
fn candidates_are_accepted(rt: HostRuntime) -> Result<(), Fail> {
    let alloc = rt.alloc();
    for (points, candidates, printed, bound) in &ACCEPTED {
        let mut shelf = shelf_with(alloc, points, candidates)?;
        expect_report(&rt, alloc, &mut shelf, PLAN, (0, printed, bound));
    }
    Ok(())
}

// Whole candidates tables, and their first fault.
const FILES: [(&[u8], &str); 4] = [
    (b"", "table,candidates,1,Header\n"),
    (b"\xEF\xBB\xBF", "table,candidates,1,Header\n"),
    (
        b"name,kind,from,to,to2,sd,sdh\n",
        "table,candidates,1,Header\n",
    ),
    (
        b"name,kind,from,to,to2,sd,sdh,price\n\xFF,level,A,H,,1.00,,5\n",
        "table,candidates,2,Utf8\n",
    ),
];

#[test]
fn bytes_of_candidates_are_refused(rt: HostRuntime) -> Result<(), Fail> {
    let alloc = rt.alloc();
    for (candidates, printed) in &FILES {
        let tables = (POINT_HEADER.as_bytes(), *candidates);
        let mut shelf = shelf_of(alloc, tables, OLD_LOG)?;
        expect_reading(&rt, alloc, &mut shelf, PLAN, (3, printed));
    }
    Ok(())
}
