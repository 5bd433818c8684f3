use geo_base::NoMemory;
use point_tables::{Points, TableAnswer, TableName, first_point_fault_is_least, read_points};
use std::alloc::Global;
use std::process::Abort;
use std::test::Fail;

// Whole tables, and what they are read as. The expected texts come from another program.
const FILES: [(&[u8], &[u8]); 9] = [
    (b"", b"1 Header"),
    (b"\xEF\xBB\xBF", b"1 Header"),
    (
        b"\xEF\xBB\xBF\xEF\xBB\xBFname,x,y,z,plane,height\n",
        b"1 Header",
    ),
    (b"name,x,y,z,plane,height\n", b""),
    (b"\xEF\xBB\xBFname,x,y,z,plane,height\n", b""),
    (b"name,x,y,z,plane,Height\n", b"1 Header"),
    (b"name,x,y,z,plane\n", b"1 Header"),
    (b"\n\"\"\r\nname,x,y,z,plane,height\n", b""),
    (
        b"\xEF\xBB\xBF\"name\",\" x\",\"y \",\"z\",\"plane\",\"height\"\r\n\"A\",\"\",\"\",\" 100.000 \",\"\",\"fixed\"\r\n\"H\",\"\",\"\",\" 101.000\",\"\",\"1.0 \"\r\n\r\n",
        b"A None None Some(100000) Absent Fixed;H None None Some(101000) Absent New(10);",
    ),
];

// Records under the header row, and what the table is read as. The expected texts come from another program.
const RECORDS: [(&[u8], &[u8]); 25] = [
    (
        b"A,,,100.000,,fixed\nH,,,101.000,,1.0\n",
        b"A None None Some(100000) Absent Fixed;H None None Some(101000) Absent New(10);",
    ),
    (b"A,1.5,-2.25,3,fixed,fixed\nB,+7.,,,,\n", b"3 Number"),
    (
        b"A,1.5,-2.25,+3,fixed,12.3\nB,,,,,",
        b"A Some(1500) Some(-2250) Some(3000) Fixed New(123);B None None None Absent Absent;",
    ),
    (
        b"P,0.000,0.000,,1.0,\n",
        b"P Some(0) Some(0) None New(10) Absent;",
    ),
    (b"A,,,,,\n", b"A None None None Absent Absent;"),
    (b"A,,,,\n", b"2 Fields"),
    (b"A,,,,,,\n", b"2 Fields"),
    (b"A\xFF,,,,,\n", b"2 Utf8"),
    (b"A,\xC3,,,,\n", b"2 Utf8"),
    (b"\xFF,,,,\n", b"2 Fields"),
    (b",,,,,\n", b"2 Name"),
    (b"\" \",,,,,\n", b"2 Name"),
    (
        b"aaaaaaaaaaaaaaaaaaaaaaaaaaaaaaaa,,,,,\n",
        b"aaaaaaaaaaaaaaaaaaaaaaaaaaaaaaaa None None None Absent Absent;",
    ),
    (b"aaaaaaaaaaaaaaaaaaaaaaaaaaaaaaaaa,,,,,\n", b"2 Name"),
    (
        b"\xC3\xA9\xC3\xA9\xC3\xA9\xC3\xA9\xC3\xA9\xC3\xA9\xC3\xA9\xC3\xA9\xC3\xA9\xC3\xA9\xC3\xA9\xC3\xA9\xC3\xA9\xC3\xA9\xC3\xA9\xC3\xA9,,,,,\n",
        b"\xC3\xA9\xC3\xA9\xC3\xA9\xC3\xA9\xC3\xA9\xC3\xA9\xC3\xA9\xC3\xA9\xC3\xA9\xC3\xA9\xC3\xA9\xC3\xA9\xC3\xA9\xC3\xA9\xC3\xA9\xC3\xA9 None None None Absent Absent;",
    ),
    (b"\"a,b\",,,,,\n", b"2 Name"),
    (b"a\"b,,,,,\n", b"2 Name"),
    (b"a\x1Fb,,,,,\n", b"2 Name"),
    (b"a\x7Fb,,,,,\n", b"2 Name"),
    (b"a b!,,,,,\n", b"a b! None None None Absent Absent;"),
    (b"A,,,,,\nA,,,,,\n", b"3 Twice"),
    (b"A,,,,,\nB,,,,,\nA ,x,,,,\n", b"4 Twice"),
    (
        b"A,,,,,\na,,,,,\n",
        b"A None None None Absent Absent;a None None None Absent Absent;",
    ),
    (b"A,,,,,\n\",\",,,,,\n", b"3 Name"),
    (b"name,,,,,\n", b"name None None None Absent Absent;"),
];

// Records with a number that is none, is out of bounds or is missing, and what the table is read as. The expected texts
// come from another program.
const NUMBERS: [(&[u8], &[u8]); 32] = [
    (b"A,,,1000000000000.000,,\n", b"2 Number"),
    (
        b"A,,,000000000001.0000,,\n",
        b"A None None Some(1000) Absent Absent;",
    ),
    (b"A,,,1.0001,,\n", b"2 Number"),
    (b"A,1e3,,,,\n", b"2 Number"),
    (b"A,,-.5,,,\n", b"2 Number"),
    (
        b"A,,,1.00000000000000000000,,\n",
        b"A None None Some(1000) Absent Absent;",
    ),
    (b"A,,,1.000000000000000000000,,\n", b"2 Number"),
    (b"A,,,,,1.05\n", b"2 Number"),
    (b"A,,,,,Fixed\n", b"2 Number"),
    (b"A,,,,fix,\n", b"2 Number"),
    (b"A,,,999999999999.999,,\n", b"2 Range"),
    (
        b"A,100000000.000,-100000000.000,100000000.000,100.0,0.1\n",
        b"A Some(100000000000) Some(-100000000000) Some(100000000000) New(1000) New(1);",
    ),
    (b"A,,,100000000.001,,\n", b"2 Range"),
    (b"A,,-100000000.001,,,\n", b"2 Range"),
    (b"A,100000000.001,,,,\n", b"2 Range"),
    (b"A,,,1,,0.0\n", b"2 Range"),
    (b"A,,,1,,100.1\n", b"2 Range"),
    (b"A,1,1,,0.0,\n", b"2 Range"),
    (b"A,1,1,,100.1,\n", b"2 Range"),
    (b"A,1,1,,-5.0,\n", b"2 Range"),
    (
        b"A,,,100000000.000,,100.0\n",
        b"A None None Some(100000000000) Absent New(1000);",
    ),
    (b"A,,,x,0.0,\n", b"2 Number"),
    (b"A,200000000,x,,,\n", b"2 Range"),
    (b"A,x,200000000,,,\n", b"2 Number"),
    (b"A,,,,0.0,x\n", b"2 Range"),
    (b"A,,,,x,0.0\n", b"2 Number"),
    (b"A,,1,x,fixed,\n", b"2 Number"),
    (b"A,,,,fixed,\n", b"2 Missing"),
    (b"A,1,,,fixed,\n", b"2 Missing"),
    (b"A,,1,,1.0,\n", b"2 Missing"),
    (b"A,1,1,,fixed,1.0\n", b"2 Missing"),
    (b"A,,,1,fixed,fixed\nB,,,\n", b"2 Missing"),
];

const HEADER: &[u8] = b"name,x,y,z,plane,height\n";

// The points of a table in their order, each found again under its name.
fn put_points(
    rt: &impl Abort,
    out: &mut Vec<u8>,
    alloc: Global,
    points: &Points,
) -> Result<(), Fail> {
    for k in 0..points.len() {
        let point = points.get(k);
        assert!(rt; points.find(point.name.bytes()) == Some(k));
        assert!(rt; points.x(k) == point.x.unwrap_or(0) && points.y(k) == point.y.unwrap_or(0));
        out.extend_from_slice(point.name.bytes())?;
        let rest = format!(in alloc;
            " {:?} {:?} {:?} {:?} {:?};",
            point.x, point.y, point.z, point.plane, point.height
        )?;
        out.extend_from_slice(rest.as_bytes())?;
    }
    Ok(())
}

// What a table is read as: its points, or the number and the kind of its first fault.
fn shown(rt: &impl Abort, alloc: Global, bytes: &[u8]) -> Result<Vec<u8>, Fail> {
    let mut out = Vec::new(alloc);
    match read_points(alloc, bytes) {
        Ok(points) => put_points(rt, &mut out, alloc, &points)?,
        Err(TableAnswer::Fault(fault)) => {
            assert!(rt; fault.table == TableName::Points);
            let text = format!(in alloc; "{} {:?}", fault.number, fault.kind)?;
            out.extend_from_slice(text.as_bytes())?;
        }
        Err(TableAnswer::NoMemory) => return Err(Fail::from(NoMemory)),
    }
    Ok(out)
}

// Asserts that each of some lists of records is read as its text.
fn expect_shown(rt: &impl Abort, alloc: Global, rows: &[(&[u8], &[u8])]) -> Result<(), Fail> {
    for (records, expected) in rows {
        let mut bytes = HEADER.to_vec(alloc)?;
        bytes.extend_from_slice(records)?;
        assert!(rt; shown(rt, alloc, bytes.as_slice())?.as_slice() == *expected);
    }
    Ok(())
}

#[test]
fn tables_read_as_points_or_as_their_first_fault(rt: HostRuntime) -> Result<(), Fail> {
    for (bytes, expected) in FILES {
        assert!(rt; shown(&rt, rt.alloc(), bytes)?.as_slice() == expected);
    }
    first_point_fault_is_least();
    Ok(())
}

#[test]
fn records_and_names_are_judged_in_order(rt: HostRuntime) -> Result<(), Fail> {
    expect_shown(&rt, rt.alloc(), &RECORDS)
}

#[test]
fn numbers_and_parts_are_judged_in_order(rt: HostRuntime) -> Result<(), Fail> {
    expect_shown(&rt, rt.alloc(), &NUMBERS)
}

// A table of so many points.
fn many_points(alloc: Global, count: u32) -> Result<Vec<u8>, Fail> {
    let mut bytes = HEADER.to_vec(alloc)?;
    for number in 0..count {
        let record = format!(in alloc; "P{number},,,,,\n")?;
        bytes.extend_from_slice(record.as_bytes())?;
    }
    Ok(bytes)
}

#[test]
fn a_table_has_at_most_a_thousand_points(rt: HostRuntime) -> Result<(), Fail> {
    let most = many_points(rt.alloc(), 1000)?;
    let points = read_points(rt.alloc(), most.as_slice())?;
    assert!(rt; points.len() == 1000);
    assert!(rt; points.find(b"P999") == Some(999));
    assert!(rt; points.find(b"P1000").is_none());
    let more = many_points(rt.alloc(), 1001)?;
    assert!(rt; shown(&rt, rt.alloc(), more.as_slice())?.as_slice() == b"1002 TooMany".as_slice());
    Ok(())
}
