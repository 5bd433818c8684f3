//! What `plan` answers, and that `check` accepts the logs that it leaves.
use crate::fixtures::{
    CLOSER_HEIGHTS, HEIGHTS, ONE_LEVEL, PLAN, SPACE_POINTS, TWO_LEVELS, expect_accepted,
    expect_report, run, shelf_with,
};
use shelf_io::MemSink;
use std::alloc::Global;
use std::process::Abort;
use std::test::Fail;

/// Records of two tables and a redundancy; the status of `plan`, what it prints before the counts of
/// its log's lines, and what it prints behind them.
struct Planning {
    points: &'static str,
    candidates: &'static str,
    redundancy: &'static str,
    status: u8,
    printed: &'static str,
    bound: &'static str,
}

const THREE_LEVELS: &str = "l1,level,A,H,,1.00,,5\nl2,level,A,H,,1.00,,7\nl3,level,A,H,,1.00,,9\n";

const LEVELS: [Planning; 8] = [
    Planning {
        points: HEIGHTS,
        candidates: ONE_LEVEL,
        redundancy: "0",
        status: 0,
        printed: "plan\ncost 5\ntake,l1\nheight,H,1.0,1.0\nredundancy,l1,1,0.000,0.000\nlog,",
        bound: "\nbound 5\n",
    },
    Planning {
        points: CLOSER_HEIGHTS,
        candidates: ONE_LEVEL,
        redundancy: "0",
        status: 1,
        printed: "no plan\nlog,",
        bound: "\nbound none\n",
    },
    Planning {
        points: CLOSER_HEIGHTS,
        candidates: TWO_LEVELS,
        redundancy: "0",
        status: 0,
        printed: "plan\ncost 12\ntake,l1\ntake,l2\nheight,H,0.8,0.9\nredundancy,l1,1,0.500,0.000\nredundancy,l2,1,0.500,0.000\nlog,",
        bound: "\nbound 12\n",
    },
    Planning {
        points: HEIGHTS,
        candidates: TWO_LEVELS,
        redundancy: "500",
        status: 0,
        printed: "plan\ncost 12\ntake,l1\ntake,l2\nheight,H,0.8,1.0\nredundancy,l1,1,0.500,0.500\nredundancy,l2,1,0.500,0.500\nlog,",
        bound: "\nbound 12\n",
    },
    Planning {
        points: HEIGHTS,
        candidates: TWO_LEVELS,
        redundancy: "501",
        status: 1,
        printed: "no plan\nlog,",
        bound: "\nbound none\n",
    },
    Planning {
        points: HEIGHTS,
        candidates: THREE_LEVELS,
        redundancy: "400",
        status: 0,
        printed: "plan\ncost 12\ntake,l1\ntake,l2\nheight,H,0.8,1.0\nredundancy,l1,1,0.500,0.400\nredundancy,l2,1,0.500,0.400\nlog,",
        bound: "\nbound 12\n",
    },
    Planning {
        points: HEIGHTS,
        candidates: "",
        redundancy: "0",
        status: 1,
        printed: "no plan\nlog,",
        bound: "\nbound none\n",
    },
    Planning {
        points: "A,,,100.000,,fixed\n",
        candidates: "",
        redundancy: "0",
        status: 0,
        printed: "plan\ncost 0\nlog,",
        bound: "\nbound 0\n",
    },
];

const LINE: &str =
    "l1,level,A,H1,,0.50,,5\nl2,level,H1,H2,,0.50,,5\nl3,level,H2,H3,,0.50,,5\nl4,level,H3,H4,,0.50,,5\n";

const NETWORKS: [Planning; 5] = [
    Planning {
        points: "A,0.000,0.000,,fixed,\nB,100.000,-100.000,,fixed,\nP,100.000,0.000,,1.0,\n",
        candidates: "d1,distance,A,P,,1.00,,5\nd2,distance,B,P,,1.00,,6\n",
        redundancy: "0",
        status: 0,
        printed: "plan\ncost 11\ntake,d1\ntake,d2\naxis,P,1.0,1.0\nredundancy,d1,1,0.000,0.000\nredundancy,d2,1,0.000,0.000\nlog,",
        bound: "\nbound 11\n",
    },
    Planning {
        points: "A,,,0.000,,fixed\nH1,,,0.000,,5.0\nH2,,,0.000,,5.0\nH3,,,0.000,,5.0\nH4,,,0.000,,1.0\n",
        candidates: LINE,
        redundancy: "0",
        status: 4,
        printed: "undecided\ncost 20\ntake,l1\ntake,l2\ntake,l3\ntake,l4\nopen,height,H4,4,-1,1\nlog,",
        bound: "\nbound 20\n",
    },
    Planning {
        points: "A,,,0.000,,fixed\nH1,,,0.000,,5.0\nH2,,,0.000,,5.0\nH3,,,0.000,,5.0\nH4,,,0.000,,1.1\n",
        candidates: LINE,
        redundancy: "0",
        status: 0,
        printed: "plan\ncost 20\ntake,l1\ntake,l2\ntake,l3\ntake,l4\nheight,H1,0.5,5.0\nheight,H2,0.8,5.0\nheight,H3,0.9,5.0\nheight,H4,1.1,1.1\nredundancy,l1,1,0.000,0.000\nredundancy,l2,1,0.000,0.000\nredundancy,l3,1,0.000,0.000\nredundancy,l4,1,0.000,0.000\nlog,",
        bound: "\nbound 20\n",
    },
    Planning {
        points: "A,,,100.000,,fixed\nB,,,101.000,,fixed\nP,,,100.500,,1.0\nQ,,,100.800,,1.0\n",
        candidates: "AP,level,A,P,,1.00,,40\nAQ,level,A,Q,,1.00,,50\nBP,level,B,P,,1.00,,45\nBQ,level,B,Q,,1.00,,35\nPQ,level,P,Q,,1.00,,30\n",
        redundancy: "300",
        status: 0,
        printed: "plan\ncost 105\ntake,AP\ntake,BQ\ntake,PQ\nheight,P,0.9,1.0\nheight,Q,0.9,1.0\nredundancy,AP,1,0.333,0.300\nredundancy,BQ,1,0.333,0.300\nredundancy,PQ,1,0.333,0.300\nlog,",
        bound: "\nbound 105\n",
    },
    Planning {
        points: SPACE_POINTS,
        candidates: "g1,vector,F1,P,,5.00,8.00,100\ng2,vector,F2,P,,5.00,8.00,120\ng3,vector,F3,P,,5.00,8.00,150\n",
        redundancy: "200",
        status: 0,
        printed: "plan\ncost 220\ntake,g1\ntake,g2\naxis,P,3.6,4.0\nheight,P,5.7,7.0\nredundancy,g1,1,0.500,0.200\nredundancy,g1,2,0.500,0.200\nredundancy,g1,3,0.500,0.200\nredundancy,g2,1,0.500,0.200\nredundancy,g2,2,0.500,0.200\nredundancy,g2,3,0.500,0.200\nlog,",
        bound: "\nbound 220\n",
    },
];

/// Plans, and replays the log.
fn expect_plan(rt: &impl Abort, alloc: Global, planning: &Planning) -> Result<(), Fail> {
    let mut shelf = shelf_with(alloc, planning.points, planning.candidates)?;
    let redundancy = planning.redundancy;
    let plan = format!(in alloc; "geoplan plan p.csv c.csv {redundancy} l.log")?;
    let answer = (planning.status, planning.printed, planning.bound);
    expect_report(rt, alloc, &mut shelf, plan.as_str(), answer);
    let check = format!(in alloc; "geoplan check p.csv c.csv {redundancy} l.log")?;
    expect_accepted(rt, alloc, &mut shelf, check.as_str(), planning.bound);
    Ok(())
}

#[test]
fn levels_are_planned(rt: HostRuntime) -> Result<(), Fail> {
    for planning in &LEVELS {
        expect_plan(&rt, rt.alloc(), planning)?;
    }
    Ok(())
}

#[test]
fn networks_are_planned(rt: HostRuntime) -> Result<(), Fail> {
    for planning in &NETWORKS {
        expect_plan(&rt, rt.alloc(), planning)?;
    }
    Ok(())
}

// Records of two tables, and the logs of which `plan` may leave one: a refuted node is a leaf of a
// verdict or of a cut.
const ONLY_LOGS: [(&str, &str, [&[u8]; 2]); 3] = [
    (
        CLOSER_HEIGHTS,
        ONE_LEVEL,
        [b"geoplan-log 2\np 0\n", b"geoplan-log 2\nk 0 1 0 1\nx 0\n"],
    ),
    (
        HEIGHTS,
        "",
        [b"geoplan-log 2\np 0\n", b"geoplan-log 2\nk 0 1 0 1\nx 0\n"],
    ),
    (
        "A,,,100.000,,fixed\n",
        "",
        [b"geoplan-log 2\nc\n", b"geoplan-log 2\nc\n"],
    ),
];

#[test]
fn logs_that_may_not_differ(rt: HostRuntime) -> Result<(), Fail> {
    let alloc = rt.alloc();
    for (points, candidates, logs) in &ONLY_LOGS {
        let mut shelf = shelf_with(alloc, points, candidates)?;
        let mut out = MemSink::new(alloc, Vec::new(alloc));
        let status = run(&rt, alloc, &mut shelf, PLAN, &mut out);
        assert!(rt; status < 2);
        let log = shelf.file("l.log").ok_or("no log")?;
        assert!(rt; log == logs[0] || log == logs[1]);
    }
    Ok(())
}
