//! What `rows` prints.
use crate::fixtures::{
    CANDIDATE_HEADER, HEIGHTS, ONE_LEVEL, POINT_HEADER, ROWS, SPACE_POINTS, expect_reading,
    shelf_with, table_of,
};
use candidate_tables::{Candidates, read_candidates};
use geo_model::Network;
use net_build::build;
use plan_report::rows_text;
use point_tables::{Points, read_points};
use std::alloc::Global;
use std::process::Abort;
use std::test::Fail;

// Records of two tables, and the unknowns and rows of their network.
const LISTS: [(&str, &str, &str); 6] = [
    (
        HEIGHTS,
        ONE_LEVEL,
        "unknown,0,H,z\nrow,l1,1,10000,0:10000\n",
    ),
    (
        "A,0.000,0.000,,fixed,\nP,30.000,40.000,,8.0,\n",
        "d1,distance,A,P,,2.00,,1\nr1,direction,A,P,,10.00,,1\n",
        "unknown,0,P,x\nunknown,1,P,y\nunknown,2,A,turn\nrow,d1,1,2500,0:6000,1:8000\nrow,r1,1,100,0:-101859,1:76394,2:-10000\n",
    ),
    (
        "P,0.000,0.000,,5.0,\nB,100.000,0.000,,fixed,\nC,0.000,100.000,,fixed,\n",
        "a1,angle,P,B,C,15.00,,1\n",
        "unknown,0,P,x\nunknown,1,P,y\nrow,a1,1,44,0:63662,1:63662\n",
    ),
    (
        "A,5512345.678,3400000.000,,fixed,\nB,5612345.678,3400000.000,,5.0,\n",
        "d1,distance,A,B,,10.00,,5\n",
        "unknown,0,B,x\nunknown,1,B,y\nrow,d1,1,100,0:10000\n",
    ),
    (
        "A,,,10.000,,fixed\nC,,,10.000,,fixed\nB,,,12.500,,2.0\n",
        "u,level,A,C,,1.00,,1\nv,level,C,B,,1.41,,2\nw,level,B,A,,3.00,,3\n",
        "unknown,0,B,z\nrow,u,1,10000\nrow,v,1,5030,0:10000\nrow,w,1,1111,0:-10000\n",
    ),
    (
        SPACE_POINTS,
        "g1,vector,F1,P,,5.00,8.00,100\n",
        "unknown,0,P,x\nunknown,1,P,y\nunknown,2,P,z\nrow,g1,1,400,0:10000\nrow,g1,2,400,1:10000\nrow,g1,3,156,2:10000\n",
    ),
];

#[test]
fn unknowns_and_rows_are_listed(rt: HostRuntime) -> Result<(), Fail> {
    let alloc = rt.alloc();
    for (points, candidates, printed) in &LISTS {
        let mut shelf = shelf_with(alloc, points, candidates)?;
        expect_reading(&rt, alloc, &mut shelf, ROWS, (0, printed));
    }
    Ok(())
}

// The points of these records, of which a proof here need know nothing.
fn points_of(alloc: Global, records: &str) -> Result<Points, Fail> {
    let bytes = table_of(alloc, POINT_HEADER, records)?;
    Ok(read_points(alloc, bytes.as_slice())?)
}

// The candidates of these records with the network of both tables, of which a proof here need know
// nothing.
fn built(alloc: Global, points: &Points, records: &str) -> Result<(Candidates, Network), Fail> {
    let bytes = table_of(alloc, CANDIDATE_HEADER, records)?;
    let candidates = read_candidates(alloc, bytes.as_slice(), points)?;
    let network = build(alloc, points, &candidates, 0)?;
    Ok((candidates, network))
}

// The text of their unknowns and rows, of which a proof here need know nothing.
fn spelled(
    rt: &impl Abort,
    alloc: Global,
    points: &Points,
    candidates: &Candidates,
    network: &Network,
) -> Result<Vec<u8>, Fail> {
    let count = points.len();
    assert!(rt; network.candidates().len() as u32 == candidates.len());
    assert!(rt;
        network
            .unknowns()
            .iter()
            .all(|unknown| unknown.point < count)
    );
    Ok(rows_text(alloc, points, candidates, network)?)
}

/// Asserts the text of the unknowns and rows of two tables.
fn expect_rows(
    rt: &impl Abort,
    alloc: Global,
    (points, candidates): (&str, &str),
    expected: &str,
) -> Result<(), Fail> {
    let points = points_of(alloc, points)?;
    let (candidates, network) = built(alloc, &points, candidates)?;
    let text = spelled(rt, alloc, &points, &candidates, &network)?;
    assert_eq!(rt; text.as_slice(), expected.as_bytes());
    Ok(())
}

#[test]
fn rows_of_tables_are_spelled(rt: HostRuntime) -> Result<(), Fail> {
    for (points, candidates, expected) in &LISTS {
        expect_rows(&rt, rt.alloc(), (points, candidates), expected)?;
    }
    Ok(())
}

#[test]
fn tables_are_refused(rt: HostRuntime) -> Result<(), Fail> {
    let alloc = rt.alloc();
    for (points, printed) in [
        ("P,0.000,0.000,,5.0,\n", "table,candidates,2,Kind\n"),
        (
            "P,0.000,0.000,,5.0,\nP,0.000,0.000,,5.0,\n",
            "table,points,3,Twice\n",
        ),
    ] {
        let mut shelf = shelf_with(alloc, points, "z1,zenith,P,P,,1.00,,5\n")?;
        expect_reading(&rt, alloc, &mut shelf, ROWS, (3, printed));
    }
    Ok(())
}
