//! What the tests share: records of tables, files, and runs over a shelf and a sink in memory.
use geoplan::{Words, geoplan};
use shelf_io::{MemShelf, MemSink};
use std::alloc::Global;
use std::process::Abort;
use std::test::Fail;

pub const POINT_HEADER: &str = "name,x,y,z,plane,height\n";

pub const CANDIDATE_HEADER: &str = "name,kind,from,to,to2,sd,sdh,price\n";

/// A fixed height, and a new one with a limit of 1.0 mm.
pub const HEIGHTS: &str = "A,,,100.000,,fixed\nH,,,101.000,,1.0\n";

/// The same with a limit of 0.9 mm.
pub const CLOSER_HEIGHTS: &str = "A,,,100.000,,fixed\nH,,,101.000,,0.9\n";

/// Three points fixed in plane and height, and a new one with limits of 4.0 and 7.0 mm.
pub const SPACE_POINTS: &str =
    "F1,0.000,0.000,0.000,fixed,fixed\nF2,100.000,0.000,5.000,fixed,fixed\nF3,0.000,100.000,8.000,fixed,fixed\nP,50.000,50.000,10.000,4.0,7.0\n";

pub const ONE_LEVEL: &str = "l1,level,A,H,,1.00,,5\n";

pub const TWO_LEVELS: &str = "l1,level,A,H,,1.00,,5\nl2,level,A,H,,1.00,,7\n";

/// The report of `HEIGHTS` and `ONE_LEVEL` before the counts of the lines of its log.
pub const ONE_LEVEL_REPORT: &str =
    "plan\ncost 5\ntake,l1\nheight,H,1.0,1.0\nredundancy,l1,1,0.000,0.000\nlog,";

/// What stands under a log's name before a run.
pub const OLD_LOG: &[u8] = b"old";

/// The whole log of two levels that miss a redundancy of 0.501, with cuts of displacements by 1.
pub const REDUNDANCY_LOG: &[u8] =
    b"geoplan-log 2\ns 0\nk 1 1 0 1\nx 0\ns 1\nk 2 1 0 1\nx 1\nk 0 1 0 1\nx 2\n";

pub const PLAN: &str = "geoplan plan p.csv c.csv 0 l.log";

pub const ROWS: &str = "geoplan rows p.csv c.csv";

pub const CHECK: &str = "geoplan check p.csv c.csv 0 l.log";

/// The words of a line.
pub fn words_of(rt: &impl Abort, alloc: Global, line: &str) -> Words {
    let mut words = Words::new(alloc);
    for word in line.split(' ') {
        assert!(rt; words.len() < 100);
        assert!(rt; words.add(word).is_ok());
    }
    words
}

/// A table: its header and its records.
pub fn table_of(alloc: Global, header: &str, records: &str) -> Result<Vec<u8>, Fail> {
    let mut bytes = header.as_bytes().to_vec(alloc)?;
    bytes.extend_from_slice(records.as_bytes())?;
    Ok(bytes)
}

/// A shelf with two tables and a log, whose calls of these numbers are to fail.
pub fn failing_shelf(
    alloc: Global,
    (points, candidates): (&[u8], &[u8]),
    log: &[u8],
    failing: Vec<u64>,
) -> Result<MemShelf, Fail> {
    let mut shelf = MemShelf::new(alloc, failing);
    shelf.put_file("p.csv", points)?;
    shelf.put_file("c.csv", candidates)?;
    shelf.put_file("l.log", log)?;
    Ok(shelf)
}

/// A shelf with two tables and a log.
pub fn shelf_of(alloc: Global, tables: (&[u8], &[u8]), log: &[u8]) -> Result<MemShelf, Fail> {
    failing_shelf(alloc, tables, log, Vec::new(alloc))
}

/// A shelf with the tables of these records, and an old log.
pub fn shelf_with(alloc: Global, points: &str, candidates: &str) -> Result<MemShelf, Fail> {
    let points = table_of(alloc, POINT_HEADER, points)?;
    let candidates = table_of(alloc, CANDIDATE_HEADER, candidates)?;
    shelf_of(alloc, (points.as_slice(), candidates.as_slice()), OLD_LOG)
}

/// The status of a run, of which a proof here need know nothing.
pub fn answered(alloc: Global, words: &Words, shelf: &mut MemShelf, out: &mut MemSink) -> u8 {
    geoplan(alloc, words, shelf, out)
}

/// Runs a command line, and answers its status.
pub fn run(
    rt: &impl Abort,
    alloc: Global,
    shelf: &mut MemShelf,
    line: &str,
    out: &mut MemSink,
) -> u8 {
    answered(alloc, &words_of(rt, alloc, line), shelf, out)
}

/// Runs a command line, and asserts what it prints and its status.
pub fn expect(
    rt: &impl Abort,
    alloc: Global,
    shelf: &mut MemShelf,
    line: &str,
    (status, printed): (u8, &str),
) {
    let mut out = MemSink::new(alloc, Vec::new(alloc));
    let answer = run(rt, alloc, shelf, line, &mut out);
    assert_eq!(rt; out.bytes(), printed.as_bytes(), "{line}");
    assert_eq!(rt; answer, status, "{printed}");
}

/// Runs a command line, and asserts its status and the report that it prints: what stands before the
/// counts of the lines of its log, and behind them.
pub fn expect_report(
    rt: &impl Abort,
    alloc: Global,
    shelf: &mut MemShelf,
    line: &str,
    (status, printed, bound): (u8, &str, &str),
) {
    let mut out = MemSink::new(alloc, Vec::new(alloc));
    let answer = run(rt, alloc, shelf, line, &mut out);
    assert!(rt; out.bytes().starts_with(printed.as_bytes()), "{line}");
    assert!(rt; out.bytes().ends_with(bound.as_bytes()), "{printed}");
    assert_eq!(rt; answer, status, "{printed}");
}

/// Runs a command line that leaves the log as it was, and asserts what it prints and its status.
pub fn expect_reading(
    rt: &impl Abort,
    alloc: Global,
    shelf: &mut MemShelf,
    line: &str,
    answer: (u8, &str),
) {
    expect(rt, alloc, shelf, line, answer);
    assert!(rt; shelf.file("l.log") == Some(OLD_LOG), "{line}");
}

/// Asserts that `check` accepts the log of a shelf, with this last line.
pub fn expect_accepted(
    rt: &impl Abort,
    alloc: Global,
    shelf: &mut MemShelf,
    line: &str,
    bound: &str,
) {
    let mut out = MemSink::new(alloc, Vec::new(alloc));
    let status = run(rt, alloc, shelf, line, &mut out);
    assert!(rt; out.bytes().starts_with(b"accepted\nlog,"), "{line}");
    assert!(rt; out.bytes().ends_with(bound.as_bytes()), "{bound}");
    assert_eq!(rt; status, 0);
}
