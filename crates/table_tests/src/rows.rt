ghost use Rattle.std.specs.Prelude.{◌≡◌, ◌<◌, length};
ghost use Rattle.candidate_tables.specs.Accepted.{AreCandidates};
ghost use Rattle.design_rows.specs.Unknowns.{unknowns_of};

use candidate_tables::{Candidates, read_candidates};
use design_rows::{Columns, rows_are_counted, rows_are_within_bounds, rows_of, unknowns_differ};
use geo_base::NoMemory;
use geo_model::{Component, Row, Unknown};
use point_tables::{Points, read_points};
use std::alloc::Global;
use std::process::Abort;
use std::test::Fail;

// Points, candidates, and their unknowns and rows as texts: each unknown as the number of its point and its component, each
// row as its weight and its entries, and a bar after the rows of a candidate. The expected texts come from another program.
const TABLES: [(&[u8], &[u8], &[u8]); 5] = [
    // a line of 100 km between large coordinates, with a fixed end
    (
        b"A,5512345.678,3400000.000,,fixed,\nB,5612345.678,3400000.000,,5.0,\n",
        b"d1,distance,A,B,,10.00,,5\n",
        b"1 X;1 Y;100 0:10000;|",
    ),
    // a distance and a direction along a line of 3, 4 and 5 parts, with the orientation of a fixed station
    (
        b"A,0.000,0.000,,fixed,\nP,30.000,40.000,,8.0,\n",
        b"d1,distance,A,P,,2.00,,1\nr1,direction,A,P,,10.00,,1\n",
        b"1 X;1 Y;0 Turn;2500 0:6000 1:8000;|100 0:-101859 1:76394 2:-10000;|",
    ),
    // an angle at a new point between two fixed ones
    (
        b"P,0.000,0.000,,1.0,\nB,100.000,0.000,,fixed,\nC,0.000,100.000,,fixed,\n",
        b"a1,angle,P,B,C,15.00,,1\n",
        b"0 X;0 Y;44 0:63662 1:63662;|",
    ),
    // levels, of which the first between fixed heights has no entry
    (
        b"A,,,100.000,,fixed\nB,,,101.000,,fixed\nH,,,102.000,,1.0\n",
        b"l1,level,A,B,,1.00,,5\nl2,level,H,A,,1.00,,5\nl3,level,B,H,,0.50,,5\n",
        b"2 Z;10000;|10000 0:-10000;|40000 0:10000;|",
    ),
    // all kinds, with new points, new heights of fixed points, and a point that has no part
    (
        b"H,,,9.000,,2.0\nP,0.000,0.000,5.000,1.0,2.0\nQ,-120.500,80.250,,2.0,\nN,,,,,\nR,15.000,-200.125,7.000,fixed,3.0\n",
        b"a1,angle,P,Q,R,15.00,,1\na2,angle,Q,R,P,3.33,,1\nr1,direction,R,Q,,7.77,,1\nr2,direction,P,R,,10.00,,1\nd1,distance,P,Q,,2.50,,3\ng1,vector,R,P,,0.10,100.00,9\nl1,level,H,R,,1.23,,4\n",
        b"0 Z;1 X;1 Y;1 Z;2 X;2 Y;4 Z;1 Turn;4 Turn;44 1:-56007 2:-38970 4:24374 5:36599;|902 1:24374 2:36599 4:-5967 5:-27703;|166 4:-18407 5:-8896 8:-10000;|100 1:-31633 2:-2371 7:-10000;|1600 1:8323 2:-5543 4:-8323 5:5543;|1000000 1:10000;1000000 2:10000;1 3:10000 6:-10000;|6610 0:-10000 6:10000;|",
    ),
];

// Three vectors to one point, of 5.00 in plan and 8.00 in height.
const VECTORS: (&[u8], &[u8], &[u8]) = (
    b"F1,0.000,0.000,0.000,fixed,fixed\nF2,100.000,0.000,0.000,fixed,fixed\nF3,0.000,100.000,0.000,fixed,fixed\nP,50.000,50.000,10.000,4.0,7.0\n",
    b"g1,vector,F1,P,,5.00,8.00,100\ng2,vector,F2,P,,5.00,8.00,120\ng3,vector,F3,P,,5.00,8.00,150\n",
    b"3 X;3 Y;3 Z;400 0:10000;400 1:10000;156 2:10000;|400 0:10000;400 1:10000;156 2:10000;|400 0:10000;400 1:10000;156 2:10000;|",
);

// A header row and records.
fn table(alloc: Global, header: &[u8], records: &[u8]) -> Result<Vec<u8>, Fail> {
    let mut bytes = header.to_vec(alloc)?;
    bytes.extend_from_slice(records)?;
    Ok(bytes)
}

// The points of some records.
fn points_of(alloc: Global, records: &[u8]) -> Result<Points, Fail> {
    let bytes = table(alloc, b"name,x,y,z,plane,height\n", records)?;
    match read_points(alloc, bytes.as_slice()) {
        Ok(points) => Ok(points),
        Err(_) => Err(Fail::from(NoMemory)),
    }
}

// Adds a row: its weight, and each entry.
fn put_row(out: &mut Vec<u8>, alloc: Global, row: &Row) -> Result<(), Fail> {
    let weight = format!(in alloc; "{}", row.weight())?;
    out.extend_from_slice(weight.as_bytes())?;
    for (column, size) in row.entries() {
        let entry = format!(in alloc; " {column}:{size}")?;
        out.extend_from_slice(entry.as_bytes())?;
    }
    out.extend_from_slice(b";")?;
    Ok(())
}

// Adds the rows of a candidate, and a bar.
fn put_candidate(
    out: &mut Vec<u8>,
    alloc: Global,
    k: u32,
    points: &Points,
    candidates: &Candidates,
    columns: &Columns,
) -> Result<(), Fail>
    requires within { k < length candidates.now }
    requires accepted { AreCandidates points.now candidates.now }
    requires numbered { columns.now ≡ unknowns_of points.now candidates.now }
{
    let rows = rows_of(alloc, candidates.get(k), points, columns)?;
    for row in rows.as_slice() {
        put_row(out, alloc, row)?;
    }
    out.extend_from_slice(b"|")?;
    Ok(())
}

// Adds the unknowns, each found again at its number.
fn put_unknowns(
    rt: &impl Abort,
    out: &mut Vec<u8>,
    alloc: Global,
    columns: &Columns,
) -> Result<(), Fail> {
    for (number, unknown) in columns.unknowns().iter().enumerate() {
        assert!(rt; columns.find(*unknown) == Some(number as u32));
        let text = format!(in alloc; "{} {:?};", unknown.point, unknown.component)?;
        out.extend_from_slice(text.as_bytes())?;
    }
    Ok(())
}

// The unknowns and rows of two tables, as a text.
fn shown(
    rt: &impl Abort,
    alloc: Global,
    point_records: &[u8],
    candidate_records: &[u8],
) -> Result<Vec<u8>, Fail> {
    let points = points_of(alloc, point_records)?;
    let bytes = table(
        alloc,
        b"name,kind,from,to,to2,sd,sdh,price\n",
        candidate_records,
    )?;
    let candidates = match read_candidates(alloc, bytes.as_slice(), &points) {
        Ok(candidates) => candidates,
        Err(_) => return Err(Fail::from(NoMemory)),
    };
    let columns = Columns::number(alloc, &points, &candidates)?;
    let mut out = Vec::new(alloc);
    put_unknowns(rt, &mut out, alloc, &columns)?;
    for k in 0..candidates.len() {
        put_candidate(&mut out, alloc, k, &points, &candidates, &columns)?;
    }
    Ok(out)
}

#[test]
fn unknowns_and_rows_of_tables(rt: HostRuntime) -> Result<(), Fail> {
    for (points, candidates, expected) in TABLES {
        let text = shown(&rt, rt.alloc(), points, candidates)?;
        assert!(rt; text.as_slice() == expected);
    }
    let (points, candidates, expected) = VECTORS;
    let text = shown(&rt, rt.alloc(), points, candidates)?;
    assert!(rt; text.as_slice() == expected);
    unknowns_differ();
    rows_are_within_bounds();
    rows_are_counted();
    Ok(())
}

#[test]
fn a_component_that_is_no_unknown_is_not_found(rt: HostRuntime) -> Result<(), Fail> {
    let points = points_of(rt.alloc(), b"A,1,2,3,fixed,2.0\nB,4,5,,1.0,\n")?;
    let bytes = b"name,kind,from,to,to2,sd,sdh,price\n";
    let candidates = match read_candidates(rt.alloc(), bytes, &points) {
        Ok(candidates) => candidates,
        Err(_) => return Err(Fail::from(NoMemory)),
    };
    let columns = Columns::number(rt.alloc(), &points, &candidates)?;
    let places = [
        (0, Component::X, None),
        (0, Component::Z, Some(0)),
        (1, Component::X, Some(1)),
        (1, Component::Y, Some(2)),
        (1, Component::Z, None),
        (1, Component::Turn, None),
        (2, Component::X, None),
    ];
    for (point, component, expected) in places {
        assert!(rt; columns.find(Unknown { point, component }) == expected);
    }
    Ok(())
}
