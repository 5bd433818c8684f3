//! Files that aren't there or are too long, and spreadsheet exports.
use crate::fixtures::{
    CANDIDATE_HEADER, CHECK, HEIGHTS, OLD_LOG, ONE_LEVEL, ONE_LEVEL_REPORT, PLAN, POINT_HEADER,
    ROWS, expect_reading, expect_report, shelf_of, table_of,
};
use std::alloc::Global;
use std::test::Fail;

// A mark, quotes, spaces round the numbers, CRLF and a blank line at the end.
const EXPORTED_POINTS: &[u8] =
    b"\xEF\xBB\xBF\"name\",\"x\",\"y\",\"z\",\"plane\",\"height\"\r\n\"A\",\"\",\"\",\" 100.000 \",\"\",\"fixed\"\r\n\"H\",\"\",\"\",\"101.000\",\"\",\" 1.0\"\r\n\r\n";

const EXPORTED_CANDIDATES: &[u8] =
    b"\xEF\xBB\xBF\"name\",\"kind\",\"from\",\"to\",\"to2\",\"sd\",\"sdh\",\"price\"\r\n\"l1\",\"level\",\"A\",\"H\",\"\",\"1.00 \",\"\",\" 5 \"\r\n\r\n";

#[test]
fn exports_are_read(rt: HostRuntime) -> Result<(), Fail> {
    let alloc = rt.alloc();
    let tables = (EXPORTED_POINTS, EXPORTED_CANDIDATES);
    let mut shelf = shelf_of(alloc, tables, OLD_LOG)?;
    let plan = (0, ONE_LEVEL_REPORT, "\nbound 5\n");
    expect_report(&rt, alloc, &mut shelf, PLAN, plan);
    Ok(())
}

/// Records under a header with blank lines behind them, up to a length.
fn lengthened(alloc: Global, header: &str, records: &str, length: usize) -> Result<Vec<u8>, Fail> {
    let mut bytes = table_of(alloc, header, records)?;
    for _ in bytes.len()..length {
        bytes.push(b'\n')?;
    }
    Ok(bytes)
}

#[test]
fn tables_have_at_most_1048576_bytes(rt: HostRuntime) -> Result<(), Fail> {
    let alloc = rt.alloc();
    let candidates = table_of(alloc, CANDIDATE_HEADER, ONE_LEVEL)?;
    let most = lengthened(alloc, POINT_HEADER, HEIGHTS, 1048576)?;
    let tables = (most.as_slice(), candidates.as_slice());
    let mut shelf = shelf_of(alloc, tables, OLD_LOG)?;
    let plan = (0, ONE_LEVEL_REPORT, "\nbound 5\n");
    expect_report(&rt, alloc, &mut shelf, PLAN, plan);
    Ok(())
}

// Command lines with a points table that is too long, the status, and what is printed.
const LONG_POINTS: [(&str, u8, &str); 5] = [
    (PLAN, 9, "too long p.csv\n"),
    (ROWS, 9, "too long p.csv\n"),
    (CHECK, 9, "too long p.csv\n"),
    ("geoplan plan p.csv x.csv 0 l.log", 9, "too long p.csv\n"),
    ("geoplan rows x.csv p.csv", 5, "cannot read x.csv\n"),
];

#[test]
fn longer_points_are_refused(rt: HostRuntime) -> Result<(), Fail> {
    let alloc = rt.alloc();
    let longer = lengthened(alloc, POINT_HEADER, HEIGHTS, 1048577)?;
    let tables = (longer.as_slice(), b"".as_slice());
    let mut shelf = shelf_of(alloc, tables, OLD_LOG)?;
    for (line, status, printed) in &LONG_POINTS {
        expect_reading(&rt, alloc, &mut shelf, line, (*status, printed));
    }
    Ok(())
}

// Command lines with an empty points table and a candidates table that is too long, the status, and
// what is printed: files are read before they are judged.
const LONG_CANDIDATES: [(&str, u8, &str); 7] = [
    (PLAN, 9, "too long c.csv\n"),
    (ROWS, 9, "too long c.csv\n"),
    ("geoplan check p.csv c.csv 0 x.log", 9, "too long c.csv\n"),
    ("geoplan plan x.csv c.csv 0 l.log", 5, "cannot read x.csv\n"),
    ("geoplan plan p.csv x.csv 0 l.log", 5, "cannot read x.csv\n"),
    (
        "geoplan check p.csv l.log 0 x.log",
        5,
        "cannot read x.log\n",
    ),
    (
        "geoplan check p.csv l.log 0 c.csv",
        3,
        "table,points,1,Header\n",
    ),
];

#[test]
fn longer_candidates_are_refused(rt: HostRuntime) -> Result<(), Fail> {
    let alloc = rt.alloc();
    let longer = lengthened(alloc, CANDIDATE_HEADER, ONE_LEVEL, 1048577)?;
    let tables = (b"".as_slice(), longer.as_slice());
    let mut shelf = shelf_of(alloc, tables, OLD_LOG)?;
    for (line, status, printed) in &LONG_CANDIDATES {
        expect_reading(&rt, alloc, &mut shelf, line, (*status, printed));
    }
    Ok(())
}
