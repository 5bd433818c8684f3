use candidate_tables::{Candidates, read_candidates};
use geo_base::NoMemory;
use point_tables::{Points, read_points};
use station_tables::{
    StationAnswer, Stations, first_station_fault_is_least, read_stations, stations_of,
};
use std::alloc::Global;
use std::process::Abort;
use std::test::Fail;

const POINTS: &[u8] =
    b"name,x,y,z,plane,height\nA,0.000,0.000,100.000,fixed,fixed\nB,100.000,-100.000,,fixed,\nP,100.000,0.000,10.000,1.0,1.0\n";

// A candidate of each kind.
const CANDIDATES: &[u8] =
    b"name,kind,from,to,to2,sd,sdh,price\nd1,distance,B,P,,1.00,,5\nr1,direction,P,A,,1.00,,6\na1,angle,A,B,P,1.00,,7\nl1,level,P,A,,1.00,,8\ng1,vector,A,P,,1.00,1.00,9\n";

// Whole tables, and what they are read as: the price of each point, or the first fault. The expected texts come from
// another program.
const FILES: [(&[u8], &[u8]); 7] = [
    (b"", b"1 Header"),
    (b"name\n", b"1 Header"),
    (b"Name,price\nA,1\n", b"1 Header"),
    (b"\xEF\xBB\xBF\xEF\xBB\xBFname,price\n", b"1 Header"),
    (b"name,price\n", b"0 0 0"),
    (
        b"\xEF\xBB\xBF\"name\",\" price\"\r\n\r\n\" B \",\" 7 \"\r\n",
        b"0 7 0",
    ),
    (b"name,price\nP,30\nA,10\nB,20", b"10 20 30"),
];

// Records under the header row, each kind of fault at its bounds, and what the table is read as. The expected texts come
// from another program.
const RECORDS: [(&[u8], &[u8]); 16] = [
    (b"Z,10\n", b"2 NoPoint"),
    (b"a,10\n", b"2 NoPoint"),
    (b",10\n", b"2 NoPoint"),
    (b"\"A,\",10\n", b"2 NoPoint"),
    (b"A,1\nB,2\nA,3\n", b"4 Twice"),
    (b"A,1\nA,x\n", b"3 Twice"),
    (b"A,1\nZ,2\nZ,3\n", b"3 NoPoint"),
    (b"A\n", b"2 Fields"),
    (b"A,1,\n", b"2 Fields"),
    (b"A,\xFF\n", b"2 Utf8"),
    (b"Z,\xFF\n", b"2 Utf8"),
    (b"A,\n", b"2 Number"),
    (b"A,1.5\n", b"2 Number"),
    (b"A,-1\n", b"2 Range"),
    (b"A,1000000001\n", b"2 Range"),
    (b"A,1000000000\nB,+0.0\nP,007\n", b"1000000000 0 7"),
];

// The points of the tests.
fn test_points(alloc: Global) -> Result<Points, Fail> {
    match read_points(alloc, POINTS) {
        Ok(points) => Ok(points),
        Err(_) => Err(Fail::from(NoMemory)),
    }
}

// The candidates of the tests.
fn test_candidates(alloc: Global, points: &Points) -> Result<Candidates, Fail> {
    match read_candidates(alloc, CANDIDATES, points) {
        Ok(candidates) => Ok(candidates),
        Err(_) => Err(Fail::from(NoMemory)),
    }
}

// The price of each point, by what a table was read as.
fn put_prices(
    out: &mut Vec<u8>,
    alloc: Global,
    points: &Points,
    stations: &Stations,
) -> Result<(), Fail> {
    for point in 0..points.len() {
        if point > 0 {
            out.extend_from_slice(b" ")?;
        }
        let price = format!(in alloc; "{}", stations.price(point))?;
        out.extend_from_slice(price.as_bytes())?;
    }
    Ok(())
}

// What a table is read as: the price of each point, or the number and the kind of its first fault.
fn shown(alloc: Global, bytes: &[u8], points: &Points) -> Result<Vec<u8>, Fail> {
    let mut out = Vec::new(alloc);
    match read_stations(alloc, bytes, points) {
        Ok(stations) => put_prices(&mut out, alloc, points, &stations)?,
        Err(StationAnswer::Fault(fault)) => {
            let text = format!(in alloc; "{} {:?}", fault.number, fault.kind)?;
            out.extend_from_slice(text.as_bytes())?;
        }
        Err(StationAnswer::NoMemory) => return Err(Fail::from(NoMemory)),
    }
    Ok(out)
}

#[test]
fn a_header_row_of_prices_is_asked_for(rt: HostRuntime) -> Result<(), Fail> {
    let points = test_points(rt.alloc())?;
    for (bytes, expected) in FILES {
        let text = shown(rt.alloc(), bytes, &points)?;
        assert!(rt; text.as_slice() == expected);
    }
    Ok(())
}

#[test]
fn station_prices_are_read_or_their_first_fault(rt: HostRuntime) -> Result<(), Fail> {
    let points = test_points(rt.alloc())?;
    for (records, expected) in RECORDS {
        let mut bytes = b"name,price\n".to_vec(rt.alloc())?;
        bytes.extend_from_slice(records)?;
        let text = shown(rt.alloc(), bytes.as_slice(), &points)?;
        assert!(rt; text.as_slice() == expected);
    }
    first_station_fault_is_least();
    Ok(())
}

// Instruments are set up for distances, directions and angles, and for no other kind.
#[test]
fn stations_are_first_points_with_their_prices(rt: HostRuntime) -> Result<(), Fail> {
    let points = test_points(rt.alloc())?;
    let candidates = test_candidates(rt.alloc(), &points)?;
    let stations = match read_stations(rt.alloc(), b"name,price\nP,30\nA,10\n", &points) {
        Ok(stations) => stations,
        Err(_) => return Err(Fail::from(NoMemory)),
    };
    let (of_candidates, prices) = stations_of(rt.alloc(), &points, &candidates, &stations)?;
    let text = format!(in rt.alloc(); "{:?} {:?}", of_candidates.as_slice(), prices.as_slice())?;
    assert!(rt; text.as_str() == "[Some(1), Some(2), Some(0), None, None] [10, 0, 30]");
    let none = Stations::none(rt.alloc());
    let (_, free) = stations_of(rt.alloc(), &points, &candidates, &none)?;
    assert!(rt; free.as_slice() == [0, 0, 0].as_slice());
    Ok(())
}

// A points table of so many points, and a table of stations of as many and perhaps one more record.
fn many_points(alloc: Global, count: u32) -> Result<(Vec<u8>, Vec<u8>), Fail> {
    let mut points = b"name,x,y,z,plane,height\n".to_vec(alloc)?;
    let mut stations = b"name,price\n".to_vec(alloc)?;
    for number in 0..count {
        let point = format!(in alloc; "P{number},,,1.000,,fixed\n")?;
        points.extend_from_slice(point.as_bytes())?;
        let station = format!(in alloc; "P{number},{number}\n")?;
        stations.extend_from_slice(station.as_bytes())?;
    }
    Ok((points, stations))
}

#[test]
fn a_table_has_at_most_1000_stations(rt: HostRuntime) -> Result<(), Fail> {
    let (points, mut bytes) = many_points(rt.alloc(), 1000)?;
    let points = match read_points(rt.alloc(), points.as_slice()) {
        Ok(points) => points,
        Err(_) => return Err(Fail::from(NoMemory)),
    };
    let stations = match read_stations(rt.alloc(), bytes.as_slice(), &points) {
        Ok(stations) => stations,
        Err(_) => return Err(Fail::from(NoMemory)),
    };
    assert!(rt; stations.price(999) == 999);
    assert!(rt; stations.price(1000) == 0);
    bytes.extend_from_slice(b"Z,1\n")?;
    let text = shown(rt.alloc(), bytes.as_slice(), &points)?;
    assert!(rt; text.as_slice() == b"1002 TooMany".as_slice());
    Ok(())
}
