//! Logs that `check` reads in parts.
use crate::fixtures::{
    CANDIDATE_HEADER, HEIGHTS, POINT_HEADER, TWO_LEVELS, failing_shelf, run, table_of,
};
use shelf_io::MemSink;
use std::alloc::Global;
use std::process::Abort;
use std::test::Fail;

const CHECK: &str = "geoplan check p.csv c.csv 501 l.log";

/// A whole log of two levels that miss a redundancy of 0.501.
const WHOLE_LOG: &[u8] = b"geoplan-log 1\ns 0\np 1\ns 1\np 2\np 0\n";

const ZENITH: &str = "z1,zenith,A,H,,1.00,,5\n";

/// A check of a log, with lines without a word behind it, over two levels or other candidates: the call
/// of the shelf that fails in it, and what it answers.
struct Reading {
    candidates: &'static str,
    log: &'static [u8],
    empty_lines: usize,
    failing: u64,
    status: u8,
    printed: &'static str,
}

// The tables are calls 1 and 2, and the log ends where a part has no byte.
const READINGS: [Reading; 12] = [
    Reading {
        candidates: TWO_LEVELS,
        log: WHOLE_LOG,
        empty_lines: 0,
        failing: 3,
        status: 5,
        printed: "cannot read l.log\n",
    },
    Reading {
        candidates: TWO_LEVELS,
        log: WHOLE_LOG,
        empty_lines: 0,
        failing: 4,
        status: 5,
        printed: "cannot read l.log\n",
    },
    Reading {
        candidates: TWO_LEVELS,
        log: WHOLE_LOG,
        empty_lines: 0,
        failing: 5,
        status: 0,
        printed: "accepted\nlog,2,0,3,0,0\nbound none\n",
    },
    Reading {
        candidates: TWO_LEVELS,
        log: b"",
        empty_lines: 0,
        failing: 4,
        status: 8,
        printed: "refused,1,Form\n",
    },
    // A line with a fault is followed by a part that can't be read.
    Reading {
        candidates: TWO_LEVELS,
        log: b"geoplan-log 1\nq\n",
        empty_lines: 65536,
        failing: 4,
        status: 5,
        printed: "cannot read l.log\n",
    },
    Reading {
        candidates: TWO_LEVELS,
        log: b"geoplan-log 1\nq\n",
        empty_lines: 65536,
        failing: 5,
        status: 5,
        printed: "cannot read l.log\n",
    },
    Reading {
        candidates: TWO_LEVELS,
        log: b"geoplan-log 1\nq\n",
        empty_lines: 65536,
        failing: 6,
        status: 8,
        printed: "refused,2,Form\n",
    },
    Reading {
        candidates: TWO_LEVELS,
        log: WHOLE_LOG,
        empty_lines: 65536,
        failing: 6,
        status: 8,
        printed: "refused,7,Extra\n",
    },
    // So is a table with a fault.
    Reading {
        candidates: ZENITH,
        log: WHOLE_LOG,
        empty_lines: 0,
        failing: 3,
        status: 5,
        printed: "cannot read l.log\n",
    },
    Reading {
        candidates: ZENITH,
        log: WHOLE_LOG,
        empty_lines: 65536,
        failing: 4,
        status: 5,
        printed: "cannot read l.log\n",
    },
    Reading {
        candidates: ZENITH,
        log: WHOLE_LOG,
        empty_lines: 0,
        failing: 5,
        status: 3,
        printed: "table,candidates,2,Kind\n",
    },
    Reading {
        candidates: ZENITH,
        log: b"",
        empty_lines: 0,
        failing: 2,
        status: 5,
        printed: "cannot read c.csv\n",
    },
];

/// Checks a log, and asserts what is answered.
fn expect_reading(rt: &impl Abort, alloc: Global, reading: &Reading) -> Result<(), Fail> {
    let points = table_of(alloc, POINT_HEADER, HEIGHTS)?;
    let candidates = table_of(alloc, CANDIDATE_HEADER, reading.candidates)?;
    let mut log = reading.log.to_vec(alloc)?;
    for _ in 0..reading.empty_lines {
        log.push(b'\n')?;
    }
    let tables = (points.as_slice(), candidates.as_slice());
    let failing = vec![in alloc; reading.failing]?;
    let mut shelf = failing_shelf(alloc, tables, log.as_slice(), failing)?;
    let mut out = MemSink::new(alloc, Vec::new(alloc));
    let status = run(rt, alloc, &mut shelf, CHECK, &mut out);
    assert_eq!(rt; out.bytes(), reading.printed.as_bytes());
    assert_eq!(rt; status, reading.status, "{}", reading.printed);
    Ok(())
}

#[test]
fn a_log_is_read_to_its_end(rt: HostRuntime) -> Result<(), Fail> {
    for reading in &READINGS {
        expect_reading(&rt, rt.alloc(), reading)?;
    }
    Ok(())
}
