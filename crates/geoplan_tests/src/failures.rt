//! Runs in which one call of the shelf or of the sink fails.
use crate::fixtures::{
    CANDIDATE_HEADER, CLOSER_HEIGHTS, HEIGHTS, OLD_LOG, ONE_LEVEL, ONE_LEVEL_REPORT, POINT_HEADER,
    REDUNDANCY_LOG, ROWS, TWO_LEVELS, expect_report, failing_shelf, run, shelf_with, table_of,
};
use shelf_io::MemSink;
use std::alloc::Global;
use std::process::Abort;
use std::test::Fail;

/// A call that fails, counted from 1.
#[derive(Clone, Copy)]
enum Failing {
    Shelf(u64),
    Sink(u64),
}

/// A run, the call that fails in it, and what it leaves.
struct Failure {
    points: &'static str,
    candidates: &'static str,
    words: &'static str,
    failing: Failing,
    status: u8,
    printed: &'static str,
    log: &'static [u8],
}

const PLAN: &str = "geoplan plan p.csv c.csv 501 l.log";

const PLANS: [Failure; 8] = [
    Failure {
        points: HEIGHTS,
        candidates: TWO_LEVELS,
        words: PLAN,
        failing: Failing::Shelf(1),
        status: 5,
        printed: "cannot read p.csv\n",
        log: OLD_LOG,
    },
    Failure {
        points: HEIGHTS,
        candidates: TWO_LEVELS,
        words: PLAN,
        failing: Failing::Shelf(2),
        status: 5,
        printed: "cannot read c.csv\n",
        log: OLD_LOG,
    },
    Failure {
        points: HEIGHTS,
        candidates: TWO_LEVELS,
        words: PLAN,
        failing: Failing::Shelf(3),
        status: 6,
        printed: "",
        log: OLD_LOG,
    },
    Failure {
        points: HEIGHTS,
        candidates: TWO_LEVELS,
        words: PLAN,
        failing: Failing::Shelf(4),
        status: 6,
        printed: "",
        log: b"geoplan",
    },
    Failure {
        points: HEIGHTS,
        candidates: TWO_LEVELS,
        words: PLAN,
        failing: Failing::Shelf(6),
        status: 6,
        printed: "",
        log: b"geoplan-log 2\ns 0\nk 1 1 0",
    },
    Failure {
        points: HEIGHTS,
        candidates: TWO_LEVELS,
        words: PLAN,
        failing: Failing::Sink(1),
        status: 6,
        printed: "no plan\nlog,2,0,",
        log: REDUNDANCY_LOG,
    },
    Failure {
        points: CLOSER_HEIGHTS,
        candidates: TWO_LEVELS,
        words: "geoplan plan p.csv c.csv 0 l.log",
        failing: Failing::Shelf(6),
        status: 6,
        printed: "",
        log: b"geoplan-log 2\ns 0\ns ",
    },
    Failure {
        points: HEIGHTS,
        candidates: ONE_LEVEL,
        words: "geoplan plan p.csv c.csv 0 l.log",
        failing: Failing::Shelf(4),
        status: 6,
        printed: "",
        log: b"geoplan",
    },
];

// What is refused stays so where its words can't be printed.
const OTHERS: [Failure; 7] = [
    Failure {
        points: HEIGHTS,
        candidates: TWO_LEVELS,
        words: "geoplan plan p.csv c.csv 1000 l.log",
        failing: Failing::Sink(1),
        status: 2,
        printed: "words not ",
        log: OLD_LOG,
    },
    Failure {
        points: HEIGHTS,
        candidates: "z1,zenith,A,H,,1.00,,5\n",
        words: PLAN,
        failing: Failing::Sink(1),
        status: 3,
        printed: "table,candid",
        log: OLD_LOG,
    },
    Failure {
        points: HEIGHTS,
        candidates: ONE_LEVEL,
        words: "geoplan plan p.csv x.csv 0 l.log",
        failing: Failing::Sink(1),
        status: 5,
        printed: "cannot re",
        log: OLD_LOG,
    },
    Failure {
        points: HEIGHTS,
        candidates: ONE_LEVEL,
        words: ROWS,
        failing: Failing::Shelf(2),
        status: 5,
        printed: "cannot read c.csv\n",
        log: OLD_LOG,
    },
    Failure {
        points: HEIGHTS,
        candidates: ONE_LEVEL,
        words: ROWS,
        failing: Failing::Sink(1),
        status: 6,
        printed: "unknown,0,H,z\nrow,",
        log: OLD_LOG,
    },
    Failure {
        points: HEIGHTS,
        candidates: TWO_LEVELS,
        words: "geoplan check p.csv c.csv 501 l.log",
        failing: Failing::Shelf(3),
        status: 5,
        printed: "cannot read l.log\n",
        log: OLD_LOG,
    },
    Failure {
        points: HEIGHTS,
        candidates: TWO_LEVELS,
        words: "geoplan check p.csv c.csv 501 l.log",
        failing: Failing::Sink(1),
        status: 8,
        printed: "refused",
        log: OLD_LOG,
    },
];

/// The numbers of the calls of a shelf and of a sink that are to fail.
fn failing_calls(alloc: Global, failing: Failing) -> Result<(Vec<u64>, Vec<u64>), Fail> {
    match failing {
        Failing::Shelf(call) => Ok((vec![in alloc; call]?, Vec::new(alloc))),
        Failing::Sink(call) => Ok((Vec::new(alloc), vec![in alloc; call]?)),
    }
}

/// Runs a command line over tables and an old log, and asserts what it leaves.
fn expect_failure(rt: &impl Abort, alloc: Global, failure: &Failure) -> Result<(), Fail> {
    let (of_shelf, of_sink) = failing_calls(alloc, failure.failing)?;
    let points = table_of(alloc, POINT_HEADER, failure.points)?;
    let candidates = table_of(alloc, CANDIDATE_HEADER, failure.candidates)?;
    let tables = (points.as_slice(), candidates.as_slice());
    let mut shelf = failing_shelf(alloc, tables, OLD_LOG, of_shelf)?;
    let mut out = MemSink::new(alloc, of_sink);
    let status = run(rt, alloc, &mut shelf, failure.words, &mut out);
    assert_eq!(rt; out.bytes(), failure.printed.as_bytes());
    assert_eq!(rt; status, failure.status, "{}", failure.printed);
    assert!(rt;
        shelf.file("l.log") == Some(failure.log),
        "{}",
        failure.printed
    );
    Ok(())
}

#[test]
fn calls_of_a_plan_fail(rt: HostRuntime) -> Result<(), Fail> {
    for failure in &PLANS {
        expect_failure(&rt, rt.alloc(), failure)?;
    }
    Ok(())
}

// Half of the report of one level is printed: the log is the one that stands where all of it is.
#[test]
fn a_log_is_whole_where_its_report_is_not(rt: HostRuntime) -> Result<(), Fail> {
    let alloc = rt.alloc();
    let plan = "geoplan plan p.csv c.csv 0 l.log";
    let mut planned = shelf_with(alloc, HEIGHTS, ONE_LEVEL)?;
    let answer = (0, ONE_LEVEL_REPORT, "\nbound 5\n");
    expect_report(&rt, alloc, &mut planned, plan, answer);
    let mut shelf = shelf_with(alloc, HEIGHTS, ONE_LEVEL)?;
    let mut out = MemSink::new(alloc, vec![in alloc; 1]?);
    assert_eq!(rt; run(&rt, alloc, &mut shelf, plan, &mut out), 6);
    let printed = b"plan\ncost 5\ntake,l1\nheight,H,1.0,1.0\nredund".as_slice();
    assert_eq!(rt; out.bytes(), printed);
    assert!(rt; shelf.file("l.log") == planned.file("l.log"));
    Ok(())
}

#[test]
fn refusals_stay_refusals(rt: HostRuntime) -> Result<(), Fail> {
    for failure in &OTHERS {
        expect_failure(&rt, rt.alloc(), failure)?;
    }
    Ok(())
}

#[test]
fn an_accepted_log_is_half_reported(rt: HostRuntime) -> Result<(), Fail> {
    let alloc = rt.alloc();
    let points = table_of(alloc, POINT_HEADER, HEIGHTS)?;
    let candidates = table_of(alloc, CANDIDATE_HEADER, TWO_LEVELS)?;
    let tables = (points.as_slice(), candidates.as_slice());
    let mut shelf = failing_shelf(alloc, tables, REDUNDANCY_LOG, Vec::new(alloc))?;
    let mut out = MemSink::new(alloc, vec![in alloc; 1]?);
    let check = "geoplan check p.csv c.csv 501 l.log";
    assert_eq!(rt; run(&rt, alloc, &mut shelf, check, &mut out), 6);
    assert_eq!(rt; out.bytes(), b"accepted\nlog,2,0,".as_slice());
    assert!(rt; shelf.file("l.log") == Some(REDUNDANCY_LOG));
    Ok(())
}
