//! Logs that `migrate` writes in format 2, and those that it refuses.
use crate::fixtures::{
    CANDIDATE_HEADER, CLOSER_HEIGHTS, OLD_LOG, ONE_LEVEL, POINT_HEADER, expect, failing_shelf, run,
    shelf_of, shelf_with, table_of,
};
use shelf_io::{MemShelf, MemSink};
use std::alloc::Global;
use std::process::Abort;
use std::test::Fail;

const MIGRATE: &str = "geoplan migrate p.csv c.csv 0 l.log n.log";

const CHECK_NEW: &str = "geoplan check p.csv c.csv 0 n.log";

/// A log of format 1 over one level, and what it comes to.
const FIRST: &[u8] = b"geoplan-log 1\nx 0 1 0 1\n";

const SECOND: &[u8] = b"geoplan-log 2\nk 0 1 0 1\nx 0\n";

// Logs over one level that is not precise enough, what they come to, and what `check` prints of both, as
// another program writes it.
const MIGRATIONS: [(&[u8], &[u8], &str); 5] = [
    (FIRST, SECOND, "accepted\nlog,0,0,0,1,0\nbound none\n"),
    (SECOND, SECOND, "accepted\nlog,0,0,0,1,0\nbound none\n"),
    (
        b"geoplan-log 1\ns 0\nx 0 1 0 1\nd 1 3 2 0 1 0 3 5 0 1 0 1 7 0 1 0 3\n",
        b"geoplan-log 2\ns 0\nk 0 1 0 1\nx 0\nk 0 1 0 3\nd 1 3 2 1 5 0 7 1\n",
        "accepted\nlog,1,0,0,1,1\nbound 180304045\n",
    ),
    (
        b"geoplan-log 1\ns 0\nc\np 0\n",
        b"geoplan-log 2\ns 0\nc\np 0\n",
        "accepted\nlog,1,1,1,0,0\nbound 5\n",
    ),
    (
        b"geoplan-log 2\nk 0 1 0 2\nk 0 1 0 2\nk 0 1 0 1\nx 0\n",
        b"geoplan-log 2\nk 0 1 0 2\nk 0 1 0 2\nk 0 1 0 1\nx 0\n",
        "accepted\nlog,0,0,0,1,0\nbound none\n",
    ),
];

/// A shelf with one level that is not precise enough, a log, and an old one under the new log's name.
fn migrating_shelf(alloc: Global, log: &[u8], failing: Vec<u64>) -> Result<MemShelf, Fail> {
    let points = table_of(alloc, POINT_HEADER, CLOSER_HEIGHTS)?;
    let candidates = table_of(alloc, CANDIDATE_HEADER, ONE_LEVEL)?;
    let tables = (points.as_slice(), candidates.as_slice());
    let mut shelf = failing_shelf(alloc, tables, log, failing)?;
    shelf.put_file("n.log", OLD_LOG)?;
    Ok(shelf)
}

#[test]
fn logs_are_written_in_format_2(rt: HostRuntime) -> Result<(), Fail> {
    let alloc = rt.alloc();
    for (log, new_log, checked) in &MIGRATIONS {
        let mut shelf = migrating_shelf(alloc, log, Vec::new(alloc))?;
        expect(&rt, alloc, &mut shelf, MIGRATE, (0, "migrated\n"));
        assert!(rt; shelf.file("n.log") == Some(*new_log), "{checked}");
        assert!(rt; shelf.file("l.log") == Some(*log), "{checked}");
        let check = "geoplan check p.csv c.csv 0 l.log";
        expect(&rt, alloc, &mut shelf, check, (0, checked));
        expect(&rt, alloc, &mut shelf, CHECK_NEW, (0, checked));
    }
    Ok(())
}

// Texts that are no logs, and what is printed.
const FAULTS: [(&[u8], &str); 7] = [
    (b"", "refused,1,Form\n"),
    (b"geoplan-log 3\nc\n", "refused,1,Form\n"),
    (b"geoplan-log 1\nx 0 1 0 1", "refused,2,Form\n"),
    (b"geoplan-log 2\nx 0 1 0 1\n", "refused,2,Form\n"),
    (b"geoplan-log 2\nk 0 1 0 1\nx 1\n", "refused,3,Range\n"),
    (
        b"geoplan-log 2\nk 0 1 0 1\nx 0\nk 0 1 0 2\n",
        "refused,4,Extra\n",
    ),
    (b"geoplan-log 1\ns 0\n", "refused,3,Short\n"),
];

#[test]
fn faulty_logs_are_not_written(rt: HostRuntime) -> Result<(), Fail> {
    let alloc = rt.alloc();
    for (log, printed) in &FAULTS {
        let mut shelf = migrating_shelf(alloc, log, Vec::new(alloc))?;
        expect(&rt, alloc, &mut shelf, MIGRATE, (8, printed));
        assert!(rt; shelf.file("n.log") == Some(OLD_LOG), "{printed}");
    }
    Ok(())
}

// Command lines over files of which one is not there or not what it is named as, the status, and what is
// printed. The log is read before the tables are judged.
const REFUSALS: [(&str, u8, &str); 10] = [
    (
        "geoplan migrate p.csv c.csv 0 l.log",
        2,
        "words not understood\n",
    ),
    (
        "geoplan migrate p.csv c.csv 0 l.log n.log m.log x.log",
        2,
        "words not understood\n",
    ),
    (
        "geoplan migrate p.csv c.csv 0 l.log l.log",
        2,
        "words not understood\n",
    ),
    (
        "geoplan migrate p.csv c.csv 0 l.log p.csv",
        2,
        "words not understood\n",
    ),
    (
        "geoplan migrate p.csv n.log 0 l.log n.log",
        2,
        "words not understood\n",
    ),
    (
        "geoplan migrate p.csv c.csv 1000 l.log n.log",
        2,
        "words not understood\n",
    ),
    (
        "geoplan migrate p.csv x.csv 0 l.log n.log",
        5,
        "cannot read x.csv\n",
    ),
    (
        "geoplan migrate p.csv l.log 0 x.log n.log",
        5,
        "cannot read x.log\n",
    ),
    (
        "geoplan migrate p.csv l.log 0 c.csv n.log",
        3,
        "table,candidates,1,Header\n",
    ),
    (
        "geoplan migrate p.csv c.csv 0 p.csv n.log",
        2,
        "words not understood\n",
    ),
];

#[test]
fn refusals_leave_the_new_log(rt: HostRuntime) -> Result<(), Fail> {
    let alloc = rt.alloc();
    let mut shelf = migrating_shelf(alloc, FIRST, Vec::new(alloc))?;
    for (line, status, printed) in &REFUSALS {
        expect(&rt, alloc, &mut shelf, line, (*status, printed));
        assert!(rt; shelf.file("n.log") == Some(OLD_LOG), "{line}");
        assert!(rt; shelf.file("l.log") == Some(FIRST), "{line}");
    }
    Ok(())
}

// The call of the shelf that fails, the status, what is printed, and what stands under the new log's
// name: the tables are calls 1 and 2, then the log is read, and the new one started and written.
const FAILING: [(u64, u8, &str, &[u8]); 6] = [
    (1, 5, "cannot read p.csv\n", OLD_LOG),
    (2, 5, "cannot read c.csv\n", OLD_LOG),
    (3, 5, "cannot read l.log\n", OLD_LOG),
    (4, 6, "", OLD_LOG),
    (5, 6, "", b"geoplan-log 2\n"),
    (6, 0, "migrated\n", SECOND),
];

#[test]
fn calls_of_a_migration_fail(rt: HostRuntime) -> Result<(), Fail> {
    let alloc = rt.alloc();
    for (call, status, printed, new_log) in &FAILING {
        let mut shelf = migrating_shelf(alloc, FIRST, vec![in alloc; *call]?)?;
        expect(&rt, alloc, &mut shelf, MIGRATE, (*status, printed));
        assert!(rt; shelf.file("n.log") == Some(*new_log), "{printed}");
        assert!(rt; shelf.file("l.log") == Some(FIRST), "{printed}");
    }
    Ok(())
}

/// Migrates a log where what is said of it can't be printed, and asserts what it leaves.
fn expect_unsaid(
    rt: &impl Abort,
    alloc: Global,
    shelf: &mut MemShelf,
    (status, printed, new_log): (u8, &[u8], &[u8]),
) -> Result<(), Fail> {
    let mut out = MemSink::new(alloc, vec![in alloc; 1]?);
    assert_eq!(rt; run(rt, alloc, shelf, MIGRATE, &mut out), status);
    assert_eq!(rt; out.bytes(), printed);
    assert!(rt; shelf.file("n.log") == Some(new_log));
    Ok(())
}

#[test]
fn a_new_log_is_whole_where_that_is_not_said(rt: HostRuntime) -> Result<(), Fail> {
    let alloc = rt.alloc();
    let mut shelf = migrating_shelf(alloc, FIRST, Vec::new(alloc))?;
    expect_unsaid(&rt, alloc, &mut shelf, (6, b"migr", SECOND))?;
    let mut shelf = migrating_shelf(alloc, b"", Vec::new(alloc))?;
    expect_unsaid(&rt, alloc, &mut shelf, (8, b"refused", OLD_LOG))
}

// What `plan` writes is of format 2.
#[test]
fn the_log_of_a_plan_is_copied(rt: HostRuntime) -> Result<(), Fail> {
    let alloc = rt.alloc();
    let mut shelf = shelf_with(alloc, CLOSER_HEIGHTS, ONE_LEVEL)?;
    let mut out = MemSink::new(alloc, Vec::new(alloc));
    let plan = "geoplan plan p.csv c.csv 0 l.log";
    assert_eq!(rt; run(&rt, alloc, &mut shelf, plan, &mut out), 1);
    expect(&rt, alloc, &mut shelf, MIGRATE, (0, "migrated\n"));
    assert!(rt; shelf.file("n.log") == shelf.file("l.log"));
    Ok(())
}

// ---- as many cuts as a log can name

/// Three new heights, so that there are three limits.
const THREE_HEIGHTS: &str = "A,,,0.000,,fixed\nH,,,0.000,,1.0\nI,,,0.000,,1.0\nJ,,,0.000,,1.0\n";

/// So many levels to the first of them.
fn levels(alloc: Global) -> Result<Vec<u8>, Fail> {
    let mut bytes = CANDIDATE_HEADER.as_bytes().to_vec(alloc)?;
    for number in 0..11u32 {
        let record = format!(in alloc; "l{number},level,A,H,,1.00,,5\n")?;
        bytes.extend_from_slice(record.as_bytes())?;
    }
    Ok(bytes)
}

/// The splits between a leaf of the tree that splits all 11 levels and the leaf before it.
fn put_splits(alloc: Global, log: &mut Vec<u8>, leaf: u16) -> Result<(), Fail> {
    for level in 0..11u32 {
        let leaves = 2048u32 >> level;
        if leaves > 0 && u32::from(leaf) % leaves == 0 {
            let line = format!(in alloc; "s {level}\n")?;
            log.extend_from_slice(line.as_bytes())?;
        }
    }
    Ok(())
}

/// A line of shares of the cuts from one number to before another.
fn put_shares(alloc: Global, log: &mut Vec<u8>, first: u32, end: u32) -> Result<(), Fail> {
    let count = end.saturating_sub(first);
    let head = format!(in alloc; "d 5 {count}")?;
    log.extend_from_slice(head.as_bytes())?;
    for cut in first..end {
        let (limit, size) = (cut / 32768, cut % 32768 + 1);
        let share = format!(in alloc; " 1 {limit} 1 0 {size}")?;
        log.extend_from_slice(share.as_bytes())?;
    }
    log.extend_from_slice(b"\n")?;
    Ok(())
}

/// A log of format 1 that uses so many cuts, 64 a leaf.
fn log_of_cuts(alloc: Global, cuts: u32) -> Result<Vec<u8>, Fail> {
    let mut log = b"geoplan-log 1\n".as_slice().to_vec(alloc)?;
    for leaf in 0..2048u16 {
        put_splits(alloc, &mut log, leaf)?;
        let first = u32::from(leaf) * 64;
        put_shares(alloc, &mut log, first.min(cuts), (first + 64).min(cuts))?;
    }
    Ok(log)
}

/// A shelf with a log that uses so many cuts.
fn shelf_of_cuts(alloc: Global, cuts: u32) -> Result<MemShelf, Fail> {
    let points = table_of(alloc, POINT_HEADER, THREE_HEIGHTS)?;
    let candidates = levels(alloc)?;
    let log = log_of_cuts(alloc, cuts)?;
    let tables = (points.as_slice(), candidates.as_slice());
    shelf_of(alloc, tables, log.as_slice())
}

#[test]
fn a_log_names_65536_cuts(rt: HostRuntime) -> Result<(), Fail> {
    let alloc = rt.alloc();
    let mut shelf = shelf_of_cuts(alloc, 65536)?;
    expect(&rt, alloc, &mut shelf, MIGRATE, (0, "migrated\n"));
    let checked = (0, "accepted\nlog,2047,0,0,0,2048\nbound 0\n");
    expect(&rt, alloc, &mut shelf, CHECK_NEW, checked);
    let lines = match shelf.file("n.log") {
        Some(log) => log.iter().filter(|byte| **byte == b'\n').count(),
        None => 0,
    };
    assert_eq!(rt; lines, 1 + 2047 + 2048 + 65536);
    Ok(())
}

#[test]
fn one_cut_more_is_too_many(rt: HostRuntime) -> Result<(), Fail> {
    let alloc = rt.alloc();
    let mut shelf = shelf_of_cuts(alloc, 65537)?;
    expect(&rt, alloc, &mut shelf, MIGRATE, (15, "too many cuts\n"));
    assert!(rt; shelf.file("n.log").is_none());
    Ok(())
}
