//! Scripts of trials. Their answers were reckoned by an independent program.
use crate::fixtures::{
    CANDIDATE_HEADER, CLOSER_HEIGHTS, HEIGHTS, OLD_LOG, ONE_LEVEL, POINT_HEADER, TWO_LEVELS,
    expect_reading, failing_shelf, shelf_with, table_of,
};
use std::alloc::Global;
use std::process::Abort;
use std::test::Fail;

const TRIAL: &str = "geoplan trial p.csv c.csv 0 s.txt";

// Records of two tables, a redundancy, a script, and what is printed.
const SCRIPTS: [(&str, &str, &str, &str, &str); 4] = [
    (
        CLOSER_HEIGHTS,
        TWO_LEVELS,
        TRIAL,
        "take l1\ntake l2\nundo\nundo\nshow\nundo\n",
        "ok\nok\nok\nok\ncost 0\nheight,H,broken\nnothing to undo\n",
    ),
    (
        HEIGHTS,
        TWO_LEVELS,
        "geoplan trial p.csv c.csv 500 s.txt",
        "take l1\nshow\n",
        "ok\ncost 5\nheight,H,met\nredundancy,l1,1,broken\n",
    ),
    (
        HEIGHTS,
        ONE_LEVEL,
        TRIAL,
        "drop l1\ntake zz\r\n\nTake l1",
        "not taken\nno candidate\nnot a command\n",
    ),
    (HEIGHTS, ONE_LEVEL, TRIAL, "", ""),
];

#[test]
fn scripts_are_answered(rt: HostRuntime) -> Result<(), Fail> {
    let alloc = rt.alloc();
    for (points, candidates, line, script, printed) in &SCRIPTS {
        let mut shelf = shelf_with(alloc, points, candidates)?;
        shelf.put_file("s.txt", script.as_bytes())?;
        expect_reading(&rt, alloc, &mut shelf, line, (0, printed));
        assert!(rt; shelf.file("s.txt") == Some(script.as_bytes()));
    }
    Ok(())
}

/// Asserts the answer to a script of empty lines and a last one without an end, of a length.
fn expect_length(
    rt: &impl Abort,
    alloc: Global,
    (points, length): (&str, usize),
    answer: (u8, &str),
) -> Result<(), Fail> {
    let mut script = Vec::new(alloc);
    for _ in 4..length {
        script.push(b'\n')?;
    }
    script.extend_from_slice(b"show")?;
    let mut shelf = shelf_with(alloc, points, ONE_LEVEL)?;
    shelf.put_file("s.txt", script.as_slice())?;
    expect_reading(rt, alloc, &mut shelf, TRIAL, answer);
    Ok(())
}

// Records of points, the length of a script, the status, and what is printed: a script is read before
// the tables are judged.
const LENGTHS: [(&str, usize, u8, &str); 4] = [
    (HEIGHTS, 1048576, 0, "cost 0\nheight,H,broken\n"),
    (HEIGHTS, 1048577, 9, "too long s.txt\n"),
    ("A\n", 1048577, 9, "too long s.txt\n"),
    ("A\n", 1048576, 3, "table,points,2,Fields\n"),
];

#[test]
fn scripts_have_at_most_1048576_bytes(rt: HostRuntime) -> Result<(), Fail> {
    let alloc = rt.alloc();
    for (points, length, status, printed) in &LENGTHS {
        expect_length(&rt, alloc, (points, *length), (*status, printed))?;
    }
    Ok(())
}

// Command lines over two tables and a script, the status, and what is printed.
const LINES: [(&str, u8, &str); 5] = [
    (
        "geoplan trial p.csv c.csv 0 x.txt",
        5,
        "cannot read x.txt\n",
    ),
    ("geoplan trial p.csv c.csv 0", 2, "words not understood\n"),
    (
        "geoplan trial p.csv c.csv 0 c.csv",
        2,
        "words not understood\n",
    ),
    (
        "geoplan trial p.csv c.csv 1000 s.txt",
        2,
        "words not understood\n",
    ),
    (
        "geoplan trial c.csv p.csv 0 x.txt",
        5,
        "cannot read x.txt\n",
    ),
];

#[test]
fn trials_are_refused(rt: HostRuntime) -> Result<(), Fail> {
    let alloc = rt.alloc();
    for (line, status, printed) in &LINES {
        let mut shelf = shelf_with(alloc, HEIGHTS, ONE_LEVEL)?;
        shelf.put_file("s.txt", b"show")?;
        expect_reading(&rt, alloc, &mut shelf, line, (*status, printed));
    }
    Ok(())
}

#[test]
fn the_read_of_a_script_fails(rt: HostRuntime) -> Result<(), Fail> {
    let alloc = rt.alloc();
    let points = table_of(alloc, POINT_HEADER, HEIGHTS)?;
    let candidates = table_of(alloc, CANDIDATE_HEADER, ONE_LEVEL)?;
    let mut failing = Vec::new(alloc);
    failing.push(3)?;
    let tables = (points.as_slice(), candidates.as_slice());
    let mut shelf = failing_shelf(alloc, tables, OLD_LOG, failing)?;
    shelf.put_file("s.txt", b"show")?;
    let answer = (5, "cannot read s.txt\n");
    expect_reading(&rt, alloc, &mut shelf, TRIAL, answer);
    Ok(())
}
