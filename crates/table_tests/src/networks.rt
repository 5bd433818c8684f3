ghost use Rattle.std.specs.Prelude.{◌≤◌};

use candidate_tables::read_candidates;
use geo_base::NoMemory;
use geo_model::{Candidate, Limit, Network, Row, Square, Unknown};
use net_build::{build, built_networks_are_networks};
use point_tables::{Points, TableAnswer, TableName, read_points};
use std::alloc::Global;
use std::process::Abort;
use std::test::Fail;

// Points, candidates, a redundancy limit in thousandths, and the network as a text: each unknown as the number of its point
// and its component; each candidate as its price and rows, a row as its weight and entries; each limit as its kind, owner,
// factor and squares. The expected texts come from another program.
const TABLES: [(&[u8], &[u8], u32, &[u8]); 4] = [
    // two levels to a new height
    (
        b"A,,,100.000,,fixed\nH,,,101.000,,1.0\n",
        b"l1,level,A,H,,1.00,,5\nl2,level,A,H,,1.00,,7\n",
        500,
        b"1 Z;5 10000 0:10000;7 10000 0:10000;Height(1) None 100 100000000000000 0:1;Redundancy(0, 0) Some(0) 500 10000000 0:10000;Redundancy(1, 0) Some(1) 500 10000000 0:10000;",
    ),
    // and without redundancy limits
    (
        b"A,,,100.000,,fixed\nH,,,101.000,,1.0\n",
        b"l1,level,A,H,,1.00,,5\n",
        0,
        b"1 Z;5 10000 0:10000;Height(1) None 100 100000000000000 0:1;",
    ),
    // two vectors to a new point, with a limit on its semi-major axis and one on its height
    (
        b"F1,0.000,0.000,0.000,fixed,fixed\nF2,100.000,0.000,0.000,fixed,fixed\nP,50.000,50.000,10.000,4.0,7.0\n",
        b"g1,vector,F1,P,,5.00,8.00,100\ng2,vector,F2,P,,5.00,8.00,120\n",
        200,
        b"2 X;2 Y;2 Z;100 400 0:10000 400 1:10000 156 2:10000;120 400 0:10000 400 1:10000 156 2:10000;Axis(2) None 1600 100000000000000 0:1 100000000000000 1:1;Height(2) None 4900 100000000000000 2:1;Redundancy(0, 0) Some(0) 800 400000 0:10000;Redundancy(0, 1) Some(0) 800 400000 1:10000;Redundancy(0, 2) Some(0) 800 156000 2:10000;Redundancy(1, 0) Some(1) 800 400000 0:10000;Redundancy(1, 1) Some(1) 800 400000 1:10000;Redundancy(1, 2) Some(1) 800 156000 2:10000;",
    ),
    // a direction with its orientation, the least and the largest limits, and the largest redundancy
    (
        b"A,0.000,0.000,,fixed,\nP,30.000,40.000,5.000,8.0,\nH,1.000,2.000,3.000,0.1,100.0\n",
        b"r1,direction,A,P,,10.00,,1\nd1,distance,H,P,,2.00,,3\n",
        999,
        b"1 X;1 Y;2 X;2 Y;2 Z;0 Turn;1 100 0:-101859 1:76394 5:-10000;3 2500 0:6067 1:7950 2:-6067 3:-7950;Axis(1) None 6400 100000000000000 0:1 100000000000000 1:1;Axis(2) None 1 100000000000000 2:1 100000000000000 3:1;Height(2) None 1000000 100000000000000 4:1;Redundancy(0, 0) Some(0) 1 100000 0:-101859 1:76394 5:-10000;Redundancy(1, 0) Some(1) 1 2500000 0:6067 1:7950 2:-6067 3:-7950;",
    ),
];

// The two parts of a first point, counts of further points with new plane and height, of vectors and of levels from the
// first point to the next, and the fault of the network, which is none where the text is empty.
const COUNTS: [(&[u8], u32, u32, u32, &[u8]); 7] = [
    (b"fixed,1.0", 21, 0, 0, b""),
    (b"1.0,fixed", 21, 0, 0, b"65 TooManyUnknowns"),
    (b"fixed,fixed", 22, 0, 0, b"66 TooManyUnknowns"),
    (b"fixed,fixed", 1, 170, 2, b""),
    (b"fixed,fixed", 1, 170, 3, b"513 TooManyRows"),
    (b"fixed,fixed", 1, 171, 0, b"513 TooManyRows"),
    (b"fixed,fixed", 22, 171, 0, b"66 TooManyUnknowns"),
];

// The points of these records.
fn points_of(alloc: Global, records: &[u8]) -> Result<Points, Fail> {
    let mut bytes = b"name,x,y,z,plane,height\n".to_vec(alloc)?;
    bytes.extend_from_slice(records)?;
    match read_points(alloc, bytes.as_slice()) {
        Ok(points) => Ok(points),
        Err(_) => Err(Fail::from(NoMemory)),
    }
}

// Adds each entry of a linear form: its column and its coefficient.
fn put_entries(out: &mut Vec<u8>, alloc: Global, entries: &[(u32, i64)]) -> Result<(), Fail> {
    for (column, coefficient) in entries {
        let text = format!(in alloc; " {column}:{coefficient}")?;
        out.extend_from_slice(text.as_bytes())?;
    }
    Ok(())
}

// Adds each row: its weight and its entries.
fn put_rows(out: &mut Vec<u8>, alloc: Global, rows: &[Row]) -> Result<(), Fail> {
    for row in rows {
        let text = format!(in alloc; " {}", row.weight())?;
        out.extend_from_slice(text.as_bytes())?;
        put_entries(out, alloc, row.entries())?;
    }
    Ok(())
}

// Adds each square: its factor and its entries.
fn put_squares(out: &mut Vec<u8>, alloc: Global, squares: &[Square]) -> Result<(), Fail> {
    for square in squares {
        let text = format!(in alloc; " {}", square.beta)?;
        out.extend_from_slice(text.as_bytes())?;
        put_entries(out, alloc, square.entries.as_slice())?;
    }
    Ok(())
}

// Adds each unknown.
fn put_unknowns(out: &mut Vec<u8>, alloc: Global, unknowns: &[Unknown]) -> Result<(), Fail> {
    for unknown in unknowns {
        let text = format!(in alloc; "{} {:?};", unknown.point, unknown.component)?;
        out.extend_from_slice(text.as_bytes())?;
    }
    Ok(())
}

// Adds each candidate.
fn put_candidates(out: &mut Vec<u8>, alloc: Global, candidates: &[Candidate]) -> Result<(), Fail> {
    for candidate in candidates {
        let text = format!(in alloc; "{}", candidate.price)?;
        out.extend_from_slice(text.as_bytes())?;
        put_rows(out, alloc, candidate.rows.as_slice())?;
        out.extend_from_slice(b";")?;
    }
    Ok(())
}

// Adds each limit.
fn put_limits(out: &mut Vec<u8>, alloc: Global, limits: &[Limit]) -> Result<(), Fail> {
    for limit in limits {
        let text = format!(in alloc; "{:?} {:?} {}", limit.kind, limit.owner, limit.alpha)?;
        out.extend_from_slice(text.as_bytes())?;
        put_squares(out, alloc, limit.squares.as_slice())?;
        out.extend_from_slice(b";")?;
    }
    Ok(())
}

// A network as a text.
fn shown(alloc: Global, network: &Network) -> Result<Vec<u8>, Fail> {
    let mut out = Vec::new(alloc);
    put_unknowns(&mut out, alloc, network.unknowns())?;
    put_candidates(&mut out, alloc, network.candidates())?;
    put_limits(&mut out, alloc, network.limits())?;
    Ok(out)
}

// The network of these records as a text, or the fault of it.
fn built(
    rt: &impl Abort,
    alloc: Global,
    point_records: &[u8],
    candidate_records: &[u8],
    q: u32,
) -> Result<Vec<u8>, Fail>
    requires { q ≤ 999 }
{
    let points = points_of(alloc, point_records)?;
    let mut bytes = b"name,kind,from,to,to2,sd,sdh,price\n".to_vec(alloc)?;
    bytes.extend_from_slice(candidate_records)?;
    let candidates = match read_candidates(alloc, bytes.as_slice(), &points) {
        Ok(candidates) => candidates,
        Err(_) => return Err(Fail::from(NoMemory)),
    };
    match build(alloc, &points, &candidates, q) {
        Ok(network) => shown(alloc, &network),
        Err(TableAnswer::Fault(fault)) => {
            assert!(rt; fault.table == TableName::Network);
            let text = format!(in alloc; "{} {:?}", fault.number, fault.kind)?;
            Ok(text.as_bytes().to_vec(alloc)?)
        }
        Err(TableAnswer::NoMemory) => Err(Fail::from(NoMemory)),
    }
}

#[test]
fn networks_of_tables(rt: HostRuntime) -> Result<(), Fail> {
    for (points, candidates, q, expected) in TABLES {
        let q = q.min(999);
        let text = built(&rt, rt.alloc(), points, candidates, q)?;
        assert!(rt; text.as_slice() == expected);
    }
    built_networks_are_networks();
    Ok(())
}

// A point with these parts, and so many new points with plane and height.
fn many_points(alloc: Global, parts: &[u8], count: u32) -> Result<Vec<u8>, Fail> {
    let mut records = b"F,0.000,0.000,0.000,".to_vec(alloc)?;
    records.extend_from_slice(parts)?;
    records.push(b'\n')?;
    for number in 0..count {
        let record = format!(in alloc; "P{number},1.000,0.000,0.000,1.0,1.0\n")?;
        records.extend_from_slice(record.as_bytes())?;
    }
    Ok(records)
}

// Adds so many candidates of a kind, from the first point to the next.
fn put_many(
    records: &mut Vec<u8>,
    alloc: Global,
    kind: &str,
    deviation: &str,
    count: u32,
) -> Result<(), Fail> {
    for number in 0..count {
        let record = format!(in alloc; "{kind}{number},{kind},F,P0,,1.00,{deviation},0\n")?;
        records.extend_from_slice(record.as_bytes())?;
    }
    Ok(())
}

#[test]
fn a_network_has_at_most_64_unknowns_and_512_rows(rt: HostRuntime) -> Result<(), Fail> {
    for (parts, points, vectors, levels, expected) in COUNTS {
        let points = many_points(rt.alloc(), parts, points)?;
        let mut candidates = Vec::new(rt.alloc());
        put_many(&mut candidates, rt.alloc(), "vector", "1.00", vectors)?;
        put_many(&mut candidates, rt.alloc(), "level", "", levels)?;
        let text = built(&rt, rt.alloc(), points.as_slice(), candidates.as_slice(), 0)?;
        if expected.is_empty() {
            assert!(rt; text.len() > 20);
        } else {
            assert!(rt; text.as_slice() == expected);
        }
    }
    Ok(())
}
