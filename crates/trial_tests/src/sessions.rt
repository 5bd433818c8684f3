//! Scripts over networks of small tables. Their answers were reckoned by an independent program.
ghost use Rattle.std.specs.Prelude.{◌≤◌};

use candidate_tables::read_candidates;
use net_build::build;
use point_tables::read_points;
use std::alloc::Global;
use std::process::Abort;
use std::test::Fail;
use trial::run;

/// Records of two tables, and a redundancy in thousandths.
#[derive(Clone, Copy)]
struct SessionTables<'a> {
    points: &'a [u8],
    candidates: &'a [u8],
    redundancy: u32,
}

// The answers to a script, of which a proof here need know nothing.
fn answers(
    rt: &impl Abort,
    alloc: Global,
    tables: &SessionTables<'_>,
    script: &[u8],
) -> Result<Vec<u8>, Fail>
    requires { tables.now.redundancy ≤ 999 }
{
    let mut bytes = b"name,x,y,z,plane,height\n".to_vec(alloc)?;
    bytes.extend_from_slice(tables.points)?;
    let points = read_points(alloc, bytes.as_slice())?;
    let mut records = b"name,kind,from,to,to2,sd,sdh,price\n".to_vec(alloc)?;
    records.extend_from_slice(tables.candidates)?;
    let candidates = read_candidates(alloc, records.as_slice(), &points)?;
    let network = build(alloc, &points, &candidates, tables.redundancy)?;
    assert!(rt; candidates.len() as usize == network.candidates().len());
    Ok(run(alloc, &points, &candidates, &network, script)?)
}

// A fixed height, and a new one with a limit.
const HEIGHT: &[u8] = b"A,,,100.000,,fixed\nH,,,101.000,,1.0\n";

const CLOSER_HEIGHT: &[u8] = b"A,,,100.000,,fixed\nH,,,101.000,,0.9\n";

// Levels to it.
const LEVEL: &[u8] = b"l1,level,A,H,,1.00,,5\n";

const LEVELS: &[u8] = b"l1,level,A,H,,1.00,,5\nl2,level,A,H,,1.00,,7\n";

// A level for 5.
const ONE: SessionTables<'static> = SessionTables {
    points: HEIGHT,
    candidates: LEVEL,
    redundancy: 0,
};

// Levels for 5 and 7, and a limit of a half on their redundancies.
const HALF_REDUNDANT: SessionTables<'static> = SessionTables {
    points: HEIGHT,
    candidates: LEVELS,
    redundancy: 500,
};

// Four heights in a row, of which the last has a limit that four levels of 0.50 mm just meet.
const ROW: SessionTables<'static> = SessionTables {
    points: b"A,,,0.000,,fixed\nH1,,,0.000,,5.0\nH2,,,0.000,,5.0\nH3,,,0.000,,5.0\nH4,,,0.000,,1.0\n",
    candidates: b"l1,level,A,H1,,0.50,,5\nl2,level,H1,H2,,0.50,,5\nl3,level,H2,H3,,0.50,,5\nl4,level,H3,H4,,0.50,,5\n",
    redundancy: 0,
};

// Tables, a script, and the answers to it.
const SCRIPTS: [(SessionTables<'static>, &[u8], &[u8]); 10] = [
    (
        SessionTables {
            points: CLOSER_HEIGHT,
            candidates: LEVELS,
            redundancy: 0,
        },
        b"take l1\ntake l2\nundo\nundo\nshow\nundo\n",
        b"ok\nok\nok\nok\ncost 0\nheight,H,broken\nnothing to undo\n",
    ),
    (
        HALF_REDUNDANT,
        b"take l1\nshow\n",
        b"ok\ncost 5\nheight,H,met\nredundancy,l1,1,broken\n",
    ),
    (
        HALF_REDUNDANT,
        b"take l1\ntake l2\nshow\nundo\nshow\ndrop l1\nshow",
        b"ok\nok\ncost 12\nheight,H,met\nredundancy,l1,1,met\nredundancy,l2,1,met\nok\ncost 5\nheight,H,met\nredundancy,l1,1,broken\nok\ncost 0\nheight,H,broken\n",
    ),
    (
        ROW,
        b"take l4\ntake l2\ntake l1\ntake l3\nshow\n",
        b"ok\nok\nok\nok\ncost 20\nheight,H1,met\nheight,H2,met\nheight,H3,met\nheight,H4,open,4,-1,1\n",
    ),
    (
        ONE,
        b"drop l1\ntake zz\r\n\nTake l1",
        b"not taken\nno candidate\nnot a command\n",
    ),
    (
        ONE,
        b"take\ntake \ntake  l1\ntake l1\r\r\ntake l1\r\ntake l1\ndrop l1\r\n\r\nundo \nshow\xff\n\xff\ntake \xff\nundo\nundo\nundo\r",
        b"not a command\nno candidate\nno candidate\nno candidate\nok\ntaken already\nok\nnot a command\nnot a command\nnot a command\nno candidate\nok\nok\nnot a command\n",
    ),
    (
        ONE,
        b"take l1\rdrop l1\n\r\rtake l1\r",
        b"no candidate\nnot a command\n",
    ),
    (ONE, b"", b""),
    (ONE, b"show", b"cost 0\nheight,H,broken\n"),
    (ONE, b"show\r", b"not a command\n"),
];

#[test]
fn scripts_and_their_answers(rt: HostRuntime) -> Result<(), Fail> {
    for (tables, script, expected) in SCRIPTS {
        let text = answers(&rt, rt.alloc(), &tables, script)?;
        assert_eq!(rt; text.as_slice(), expected);
    }
    Ok(())
}

// Levels `l1`, `l2` and so on, for 5 each.
fn levels(alloc: Global, count: u32) -> Result<Vec<u8>, Fail> {
    let mut text = Vec::new(alloc);
    for number in 1..=count {
        let record = format!(in alloc; "l{number},level,A,H,,1.00,,5\n")?;
        text.extend_from_slice(record.as_bytes())?;
    }
    Ok(text)
}

// A script that takes them.
fn takes(alloc: Global, count: u32) -> Result<Vec<u8>, Fail> {
    let mut text = Vec::new(alloc);
    for number in 1..=count {
        let line = format!(in alloc; "take l{number}\n")?;
        text.extend_from_slice(line.as_bytes())?;
    }
    Ok(text)
}

// A line, so many times.
fn repeated(alloc: Global, line: &[u8], count: u32) -> Result<Vec<u8>, Fail> {
    let mut text = Vec::new(alloc);
    for _ in 0..count {
        text.extend_from_slice(line)?;
    }
    Ok(text)
}

#[test]
fn the_33rd_change_is_too_deep(rt: HostRuntime) -> Result<(), Fail> {
    let records = levels(rt.alloc(), 33)?;
    let tables = SessionTables {
        points: HEIGHT,
        candidates: records.as_slice(),
        redundancy: 0,
    };
    let mut script = takes(rt.alloc(), 33)?;
    script.extend_from_slice(b"undo\ndrop l1\ndrop l2\ntake l40\ntake l1\n")?;
    let mut expected = repeated(rt.alloc(), b"ok\n", 32)?;
    expected.extend_from_slice(b"too deep\nok\nok\ntoo deep\nno candidate\ntoo deep\n")?;
    let text = answers(&rt, rt.alloc(), &tables, script.as_slice())?;
    assert_eq!(rt; text.as_slice(), expected.as_slice());
    Ok(())
}

#[test]
fn the_257th_show_is_refused(rt: HostRuntime) -> Result<(), Fail> {
    let mut script = repeated(rt.alloc(), b"show\n", 257)?;
    script.extend_from_slice(b"take l1\nshow")?;
    let mut expected = repeated(rt.alloc(), b"cost 0\nheight,H,broken\n", 256)?;
    expected.extend_from_slice(b"too many shows\nok\ntoo many shows\n")?;
    let text = answers(&rt, rt.alloc(), &ONE, script.as_slice())?;
    assert_eq!(rt; text.as_slice(), expected.as_slice());
    Ok(())
}
