use candidate_tables::{
    Candidates, first_candidate_fault_is_least, read_candidates, words_name_kinds,
};
use geo_base::NoMemory;
use point_tables::{Points, TableAnswer, TableName, read_points};
use std::alloc::Global;
use std::process::Abort;
use std::test::Fail;

const POINTS: &[u8] =
    b"name,x,y,z,plane,height\nA,0.000,0.000,100.000,fixed,fixed\nH,,,101.000,,1.0\nP,30.000,40.000,10.000,4.0,7.0\nN,0.999,0,,fixed,\nO,1.000,0,,fixed,\nQ,0,9.999,,fixed,\nR,0,10.000,,1.0,\nF,100000.000,0,,fixed,\nG,100000.001,0,,fixed,\n";

// Whole tables, and what they are read as. The expected texts come from another program.
const FILES: [(&[u8], &[u8]); 6] = [
    (b"", b"1 Header"),
    (b"\xEF\xBB\xBF", b"1 Header"),
    (
        b"\xEF\xBB\xBF\xEF\xBB\xBFname,kind,from,to,to2,sd,sdh,price\n",
        b"1 Header",
    ),
    (
        b"name,kind,from,to,to2,sd,sdh,price\nl1,level,A,H,,1.00,,5\nl2,level,A,H,,1.00,,\xFF\n",
        b"3 Utf8",
    ),
    (b"name,kind,from,to,to2,sd,sdh,Price\n", b"1 Header"),
    (
        b"\xEF\xBB\xBF\"name\",\"kind\",\" from\",\"to \",\"to2\",\"sd\",\"sdh\",\"price\"\r\n\"l1\",\"level\",\"A\",\"H\",\"\",\" 1.00 \",\"\",\"5\"\r\n\r\n",
        b"l1 Level 0 1 None 100 None 5;",
    ),
];

// Records under the header row, and what the table is read as. The expected texts come from another program.
const RECORDS: [(&[u8], &[u8]); 12] = [
    (
        b"l1,level,A,H,,1.00,,5\nA,level,H,A,,+0.1,,5.000\n",
        b"l1 Level 0 1 None 100 None 5;A Level 1 0 None 10 None 5;",
    ),
    (
        b"d1,distance,A,O,,2.00,,1\nr1,direction,A,R,,10.00,,1\n",
        b"d1 Distance 0 4 None 200 None 1;r1 Direction 0 6 None 1000 None 1;",
    ),
    (
        b"d1,distance,A,F,,100.00,,1000000000\n",
        b"d1 Distance 0 7 None 10000 None 1000000000;",
    ),
    (
        b"a1,angle,A,R,F,15.00,,0\n",
        b"a1 Angle 0 6 Some(7) 1500 None 0;",
    ),
    (
        b"g1,vector,A,P,,5.00,8.00,100\n",
        b"g1 Vector 0 2 None 500 Some(800) 100;",
    ),
    (b"l1,level,A,H,,1.00,\n", b"2 Fields"),
    (
        b"l1,level,A,H,,1.00,,5\nl2,level,A,P,,1.00,,5\nl1,zenith,A,H,,1.00,,5\n",
        b"4 Twice",
    ),
    (b"z1,zenith,none,H,,1.00,,5\n", b"2 Kind"),
    (b"l1,level,A,none,A,1.00,,5\n", b"2 NoPoint"),
    (b"a1,angle,A,R,,1.00,1.00,5\n", b"2 NoPoint"),
    (b"l1,level,A,A,A,1.00,,5\n", b"2 Extra"),
    (b"a1,angle,A,A,R,1.00,1.00,5\n", b"2 Extra"),
];

// Records that break a rule on their points, lines or numbers, and the first fault. The expected texts come from
// another program.
const REFUSED: [(&[u8], &[u8]); 17] = [
    (b"l1,level,A,A,,1.00,,5\n", b"2 SamePoint"),
    (b"a1,angle,A,H,H,1.00,,5\n", b"2 SamePoint"),
    (b"d1,distance,A,H,,1.00,,5\n", b"2 NoPlane"),
    (b"g1,vector,H,O,,1.00,1.00,5\n", b"2 NoPlane"),
    (b"g1,vector,A,O,,1.00,1.00,5\n", b"2 NoHeight"),
    (b"d1,distance,A,N,,1.00,,5\n", b"2 Near"),
    (b"r1,direction,A,Q,,1.00,,5\n", b"2 Near"),
    (b"d1,distance,A,G,,0.09,,5\n", b"2 Far"),
    (b"a1,angle,A,G,Q,1.00,,5\n", b"2 Far"),
    (b"a1,angle,A,R,Q,1.00,,5\n", b"2 Near"),
    (b"l1,level,A,H,,0.09,,x\n", b"2 Range"),
    (b"l1,level,A,H,,1.005,,-1\n", b"2 Number"),
    (b"g1,vector,A,P,,100.01,x,5\n", b"2 Range"),
    (b"g1,vector,A,P,,1.00,,1.5\n", b"2 Number"),
    (b"l1,level,A,H,,1.00,,1.5\n", b"2 Number"),
    (b"l1,level,A,H,,1.00,,1000000001\n", b"2 Range"),
    (b"l1,level,A,H,,1.00,,-1\n", b"2 Range"),
];

// Records with a name, a number of fields or a standard deviation at or past its bounds, and what the table is read as.
// The expected texts come from another program.
const BOUNDS: [(&[u8], &[u8]); 16] = [
    (b",level,A,H,,1.00,,5\n", b"2 Name"),
    (
        b"aaaaaaaaaaaaaaaaaaaaaaaaaaaaaaaa,level,A,H,,1.00,,5\n",
        b"aaaaaaaaaaaaaaaaaaaaaaaaaaaaaaaa Level 0 1 None 100 None 5;",
    ),
    (
        b"aaaaaaaaaaaaaaaaaaaaaaaaaaaaaaaaa,level,A,H,,1.00,,5\n",
        b"2 Name",
    ),
    (b"\"a,b\",level,A,H,,1.00,,5\n", b"2 Name"),
    (b"l1,level,A,H,,1.00,,5,\n", b"2 Fields"),
    (b"l1,level,none,H,,1.00,,5\n", b"2 NoPoint"),
    (b"l1,level,A,H,A,1.00,,5\n", b"2 Extra"),
    (
        b"r1,direction,A,F,,1.00,,5\n",
        b"r1 Direction 0 7 None 100 None 5;",
    ),
    (b"r1,direction,A,G,,1.00,,5\n", b"2 Far"),
    (
        b"a1,angle,A,R,F,1.00,,5\n",
        b"a1 Angle 0 6 Some(7) 100 None 5;",
    ),
    (b"a1,angle,A,R,G,1.00,,5\n", b"2 Far"),
    (b"g1,vector,A,P,,1.00,0.09,5\n", b"2 Range"),
    (
        b"g1,vector,A,P,,1.00,0.10,5\n",
        b"g1 Vector 0 2 None 100 Some(10) 5;",
    ),
    (
        b"g1,vector,A,P,,1.00,100.00,5\n",
        b"g1 Vector 0 2 None 100 Some(10000) 5;",
    ),
    (b"g1,vector,A,P,,1.00,100.01,5\n", b"2 Range"),
    (b"l1,level,A,H,,100.01,,5\n", b"2 Range"),
];

// Points 100 km apart, and points that are a millimetre further apart, with what a distance between them is read as.
const FAR_POINTS: [(&[u8], &[u8]); 2] = [
    (
        b"name,x,y,z,plane,height\nA,5512345.678,3400000.000,,fixed,\nB,5612345.678,3400000.000,,5.0,\n",
        b"d1 Distance 0 1 None 1000 None 5;",
    ),
    (
        b"name,x,y,z,plane,height\nA,5512345.678,3400000.000,,fixed,\nB,5612345.679,3400000.000,,5.0,\n",
        b"2 Far",
    ),
];

const HEADER: &[u8] = b"name,kind,from,to,to2,sd,sdh,price\n";

// The points of a table.
fn points_of(alloc: Global, table: &[u8]) -> Result<Points, Fail> {
    match read_points(alloc, table) {
        Ok(points) => Ok(points),
        Err(_) => Err(Fail::from(NoMemory)),
    }
}

// The points that the candidates of the tests name.
fn test_points(alloc: Global) -> Result<Points, Fail> {
    points_of(alloc, POINTS)
}

// The candidates of a table in their order, each found again under its name.
fn put_candidates(
    rt: &impl Abort,
    out: &mut Vec<u8>,
    alloc: Global,
    candidates: &Candidates,
) -> Result<(), Fail> {
    for k in 0..candidates.len() {
        let candidate = candidates.get(k);
        assert!(rt; candidates.find(candidate.name.bytes()) == Some(k));
        out.extend_from_slice(candidate.name.bytes())?;
        let ends = format!(in alloc;
            " {:?} {} {} {:?}",
            candidate.kind, candidate.from, candidate.to, candidate.to2
        )?;
        out.extend_from_slice(ends.as_bytes())?;
        let figures = format!(in alloc;
            " {} {:?} {};",
            candidate.sd, candidate.sdh, candidate.price
        )?;
        out.extend_from_slice(figures.as_bytes())?;
    }
    Ok(())
}

// What a table is read as: its candidates, or the number and the kind of its first fault.
fn shown(rt: &impl Abort, alloc: Global, bytes: &[u8], points: &Points) -> Result<Vec<u8>, Fail> {
    let mut out = Vec::new(alloc);
    match read_candidates(alloc, bytes, points) {
        Ok(candidates) => put_candidates(rt, &mut out, alloc, &candidates)?,
        Err(TableAnswer::Fault(fault)) => {
            assert!(rt; fault.table == TableName::Candidates);
            let text = format!(in alloc; "{} {:?}", fault.number, fault.kind)?;
            out.extend_from_slice(text.as_bytes())?;
        }
        Err(TableAnswer::NoMemory) => return Err(Fail::from(NoMemory)),
    }
    Ok(out)
}

// Asserts that each of some lists of records is read as its text.
fn expect_shown(rt: &impl Abort, alloc: Global, rows: &[(&[u8], &[u8])]) -> Result<(), Fail> {
    let points = test_points(alloc)?;
    for (records, expected) in rows {
        let mut bytes = HEADER.to_vec(alloc)?;
        bytes.extend_from_slice(records)?;
        let text = shown(rt, alloc, bytes.as_slice(), &points)?;
        assert!(rt; text.as_slice() == *expected);
    }
    Ok(())
}

#[test]
fn tables_read_as_candidates_or_as_their_first_fault(rt: HostRuntime) -> Result<(), Fail> {
    expect_shown(&rt, rt.alloc(), &RECORDS)?;
    first_candidate_fault_is_least();
    words_name_kinds();
    Ok(())
}

#[test]
fn points_lines_and_numbers_are_judged_in_order(rt: HostRuntime) -> Result<(), Fail> {
    expect_shown(&rt, rt.alloc(), &REFUSED)
}

#[test]
fn names_lines_and_deviations_are_judged_at_their_bounds(rt: HostRuntime) -> Result<(), Fail> {
    expect_shown(&rt, rt.alloc(), &BOUNDS)
}

#[test]
fn a_header_row_is_asked_for(rt: HostRuntime) -> Result<(), Fail> {
    let points = test_points(rt.alloc())?;
    for (bytes, expected) in FILES {
        let text = shown(&rt, rt.alloc(), bytes, &points)?;
        assert!(rt; text.as_slice() == expected);
    }
    Ok(())
}

#[test]
fn a_line_is_at_most_100_km_long(rt: HostRuntime) -> Result<(), Fail> {
    let table = b"name,kind,from,to,to2,sd,sdh,price\nd1,distance,A,B,,10.00,,5\n";
    for (points, expected) in FAR_POINTS {
        let points = points_of(rt.alloc(), points)?;
        let text = shown(&rt, rt.alloc(), table, &points)?;
        assert!(rt; text.as_slice() == expected);
    }
    Ok(())
}

// A table of so many candidates.
fn many_candidates(alloc: Global, count: u32) -> Result<Vec<u8>, Fail> {
    let mut bytes = HEADER.to_vec(alloc)?;
    for number in 0..count {
        let record = format!(in alloc; "l{number},level,A,H,,1.00,,{number}\n")?;
        bytes.extend_from_slice(record.as_bytes())?;
    }
    Ok(bytes)
}

#[test]
fn a_table_has_at_most_256_candidates(rt: HostRuntime) -> Result<(), Fail> {
    let points = test_points(rt.alloc())?;
    let most = many_candidates(rt.alloc(), 256)?;
    let candidates = read_candidates(rt.alloc(), most.as_slice(), &points)?;
    assert!(rt; candidates.len() == 256);
    assert!(rt; candidates.find(b"l255") == Some(255));
    assert!(rt; candidates.find(b"l256").is_none());
    let more = many_candidates(rt.alloc(), 257)?;
    let text = shown(&rt, rt.alloc(), more.as_slice(), &points)?;
    assert!(rt; text.as_slice() == b"258 TooMany".as_slice());
    Ok(())
}
