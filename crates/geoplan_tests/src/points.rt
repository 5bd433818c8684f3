//! Points tables with faults, and at their bounds.
use crate::fixtures::{
    CANDIDATE_HEADER, CHECK, OLD_LOG, PLAN, ROWS, expect_reading, shelf_of, shelf_with,
};
use std::test::Fail;

// Records of a points table, and the first fault of the table.
const FAULTS: [(&str, &str); 22] = [
    (",,,101.000,,1.0\n", "table,points,2,Name\n"),
    (
        "nnnnnnnnnnnnnnnnnnnnnnnnnnnnnnnnn,,,101.000,,1.0\n",
        "table,points,2,Name\n",
    ),
    ("\"a,b\",,,101.000,,1.0\n", "table,points,2,Name\n"),
    ("\x7F,,,101.000,,1.0\n", "table,points,2,Name\n"),
    ("H,,,101.000,1.0\n", "table,points,2,Fields\n"),
    ("H,,,101.000,,1.0,\n", "table,points,2,Fields\n"),
    (
        "A,,,100.000,,fixed\nA,,,101.000,,1.0\n",
        "table,points,3,Twice\n",
    ),
    ("H,,,1000000000000.000,,1.0\n", "table,points,2,Number\n"),
    ("H,,,101.000,,1.05\n", "table,points,2,Number\n"),
    ("H,,,101.000,,Fixed\n", "table,points,2,Number\n"),
    ("H,,,101.0001,,1.0\n", "table,points,2,Number\n"),
    ("H,,,100000000.001,,1.0\n", "table,points,2,Range\n"),
    ("H,-100000000.001,,,,\n", "table,points,2,Range\n"),
    ("H,,,999999999999,,1.0\n", "table,points,2,Range\n"),
    ("H,,,101.000,,0.0\n", "table,points,2,Range\n"),
    ("H,,,101.000,,100.1\n", "table,points,2,Range\n"),
    ("H,,,100000000.001,,1.05\n", "table,points,2,Range\n"),
    ("P,,1.000,,2.0,\n", "table,points,2,Missing\n"),
    ("P,1.000,,,2.0,\n", "table,points,2,Missing\n"),
    ("A,,,,,fixed\n", "table,points,2,Missing\n"),
    ("A,,,,,fixed\n,,,101.000,,1.0\n", "table,points,2,Missing\n"),
    ("A,1,,,fixed,1.05\n", "table,points,2,Number\n"),
];

#[test]
fn points_are_refused(rt: HostRuntime) -> Result<(), Fail> {
    let alloc = rt.alloc();
    for (points, printed) in &FAULTS {
        let mut shelf = shelf_with(alloc, points, "")?;
        expect_reading(&rt, alloc, &mut shelf, PLAN, (3, printed));
    }
    Ok(())
}

// Records of a points table at its bounds, and its unknowns.
const ACCEPTED: [(&str, &str); 6] = [
    (
        "nnnnnnnnnnnnnnnnnnnnnnnnnnnnnnnn,,,101.000,,1.0\n",
        "unknown,0,nnnnnnnnnnnnnnnnnnnnnnnnnnnnnnnn,z\n",
    ),
    ("H,,,100000000.000,,100.0\n", "unknown,0,H,z\n"),
    ("H,,,-100000000.00000,,0.1\n", "unknown,0,H,z\n"),
    ("P,+0100,-0,,00.100,\n", "unknown,0,P,x\nunknown,1,P,y\n"),
    ("P,1,2,3,,\nH,4,5,6,fixed,100\n", "unknown,0,H,z\n"),
    ("A,0.000,0,+100,fixed,2\n", "unknown,0,A,z\n"),
];

#[test]
fn points_are_accepted(rt: HostRuntime) -> Result<(), Fail> {
    let alloc = rt.alloc();
    for (points, printed) in &ACCEPTED {
        let mut shelf = shelf_with(alloc, points, "")?;
        expect_reading(&rt, alloc, &mut shelf, ROWS, (0, printed));
    }
    Ok(())
}

// Whole points tables, and their first fault.
const FILES: [(&[u8], &str); 6] = [
    (b"", "table,points,1,Header\n"),
    (b"\xEF\xBB\xBF", "table,points,1,Header\n"),
    (
        b"\xEF\xBB\xBF\xEF\xBB\xBFname,x,y,z,plane,height\nH,,,101.000,,1.0\n",
        "table,points,1,Header\n",
    ),
    (b"Name,x,y,z,plane,height\n", "table,points,1,Header\n"),
    (
        b"name,x,y,z,plane,height\n\xFF,,,101.000,,1.0\n",
        "table,points,2,Utf8\n",
    ),
    (
        b"name,x,y,z,plane,height\nH,,,101.000,,\xFF\n",
        "table,points,2,Utf8\n",
    ),
];

#[test]
fn bytes_of_points_are_refused(rt: HostRuntime) -> Result<(), Fail> {
    let alloc = rt.alloc();
    for (points, printed) in &FILES {
        let tables = (*points, CANDIDATE_HEADER.as_bytes());
        let mut shelf = shelf_of(alloc, tables, OLD_LOG)?;
        expect_reading(&rt, alloc, &mut shelf, CHECK, (3, printed));
    }
    Ok(())
}
