//! A table of stations behind the other words: what is planned, checked and tried with it, and what is
//! refused of it. What is printed was reckoned by an independent program.
use crate::fixtures::{
    OLD_LOG, expect, expect_accepted, expect_reading, expect_report, shelf_with, table_of,
};
use shelf_io::MemShelf;
use std::alloc::Global;
use std::test::Fail;

const POINTS: &str = "A,0.000,0.000,,fixed,\nB,100.000,-100.000,,fixed,\nP,100.000,0.000,,1.0,\n";

// Two distances, each from either end.
const CANDIDATES: &str =
    "d1,distance,A,P,,1.00,,5\nd2,distance,B,P,,1.00,,6\nd3,distance,P,A,,1.00,,7\nd4,distance,P,B,,1.00,,7\n";

const EACH_10: &str = "A,10\nB,10\nP,10\n";

const PLAN: &str = "geoplan plan p.csv c.csv 0 l.log s.csv";

const CHECK: &str = "geoplan check p.csv c.csv 0 l.log s.csv";

const CHECK_FREE: &str = "geoplan check p.csv c.csv 0 l.log";

const CHECK_NEW: &str = "geoplan check p.csv c.csv 0 n.log s.csv";

const TRIAL: &str = "geoplan trial p.csv c.csv 0 t.txt s.csv";

const MIGRATE: &str = "geoplan migrate p.csv c.csv 0 l.log n.log s.csv";

/// A shelf with three tables, a script and an old log.
fn shelf_of(alloc: Global, stations: &str, script: &str) -> Result<MemShelf, Fail> {
    let mut shelf = shelf_with(alloc, POINTS, CANDIDATES)?;
    let stations = table_of(alloc, "name,price\n", stations)?;
    shelf.put_file("s.csv", stations.as_slice())?;
    shelf.put_file("t.txt", script.as_bytes())?;
    Ok(shelf)
}

// Records of a table of stations, what the report of `plan` begins with, and its bound.
const PLANS: [(&str, &str, &str); 3] = [
    (
        EACH_10,
        "plan\ncost 24\ntake,d3\ntake,d4\naxis,P,1.0,1.0\nredundancy,d3,1,0.000,0.000\nredundancy,d4,1,0.000,0.000\nlog,",
        "\nbound 24\n",
    ),
    (
        "A,0\n",
        "plan\ncost 11\ntake,d1\ntake,d2\naxis,P,1.0,1.0\nredundancy,d1,1,0.000,0.000\nredundancy,d2,1,0.000,0.000\nlog,",
        "\nbound 11\n",
    ),
    (
        "P,3\n",
        "plan\ncost 11\ntake,d1\ntake,d2\naxis,P,1.0,1.0\nredundancy,d1,1,0.000,0.000\nredundancy,d2,1,0.000,0.000\nlog,",
        "\nbound 11\n",
    ),
];

#[test]
fn a_station_is_paid_for_once(rt: HostRuntime) -> Result<(), Fail> {
    let alloc = rt.alloc();
    for (stations, printed, bound) in &PLANS {
        let mut shelf = shelf_of(alloc, stations, "")?;
        expect_report(&rt, alloc, &mut shelf, PLAN, (0, printed, bound));
        expect_accepted(&rt, alloc, &mut shelf, CHECK, bound);
    }
    Ok(())
}

/// A log of format 1 of one line, with a share of 15 of a cut that two distances of one price bear.
const FIRST_LOG: &[u8] = b"geoplan-log 1\nd 11920928 1 15 0 1 0 1\n";

/// The same log in format 2.
const SECOND_LOG: &[u8] = b"geoplan-log 2\nk 0 1 0 1\nd 11920928 1 15 0\n";

// What `check` prints of the two logs, with the prices of stations and without.
const CHECKED: [(&str, &str); 4] = [
    (CHECK, "accepted\nlog,0,0,0,0,1\nbound 15\n"),
    (CHECK_FREE, "accepted\nlog,0,0,0,0,1\nbound 0\n"),
    (CHECK_NEW, "accepted\nlog,0,0,0,0,1\nbound 15\n"),
    (
        "geoplan check p.csv c.csv 0 n.log",
        "accepted\nlog,0,0,0,0,1\nbound 0\n",
    ),
];

#[test]
fn stations_raise_the_bound_of_a_log_and_of_what_it_migrates_to(
    rt: HostRuntime,
) -> Result<(), Fail> {
    let alloc = rt.alloc();
    let mut shelf = shelf_of(alloc, EACH_10, "")?;
    shelf.put_file("l.log", FIRST_LOG)?;
    expect(&rt, alloc, &mut shelf, MIGRATE, (0, "migrated\n"));
    assert!(rt; shelf.file("n.log") == Some(SECOND_LOG));
    for (line, printed) in &CHECKED {
        expect(&rt, alloc, &mut shelf, line, (0, printed));
    }
    Ok(())
}

#[test]
fn a_script_is_answered_with_the_prices_of_stations(rt: HostRuntime) -> Result<(), Fail> {
    let alloc = rt.alloc();
    let script = "take d1\nshow\ntake d2\ntake d4\nshow\n";
    let mut shelf = shelf_of(alloc, EACH_10, script)?;
    let answers = "ok\ncost 15\naxis,P,broken\nok\nok\ncost 48\naxis,P,met\n";
    expect_reading(&rt, alloc, &mut shelf, TRIAL, (0, answers));
    let free = "ok\ncost 5\naxis,P,broken\nok\nok\ncost 18\naxis,P,met\n";
    let without = "geoplan trial p.csv c.csv 0 t.txt";
    expect_reading(&rt, alloc, &mut shelf, without, (0, free));
    Ok(())
}

// Command lines over a table of stations with a fault, the status, and what is printed: files are read
// in their order before they are judged.
const REFUSED: [(&str, u8, &str); 12] = [
    (PLAN, 3, "table,stations,2,NoPoint\n"),
    (CHECK, 3, "table,stations,2,NoPoint\n"),
    (TRIAL, 3, "table,stations,2,NoPoint\n"),
    (MIGRATE, 3, "table,stations,2,NoPoint\n"),
    (
        "geoplan check p.csv c.csv 0 x.log s.csv",
        5,
        "cannot read x.log\n",
    ),
    (
        "geoplan check p.csv c.csv 0 x.log x.csv",
        5,
        "cannot read x.csv\n",
    ),
    (
        "geoplan plan p.csv x.csv 0 l.log s.csv",
        5,
        "cannot read x.csv\n",
    ),
    (
        "geoplan plan p.csv t.txt 0 l.log s.csv",
        3,
        "table,candidates,1,Header\n",
    ),
    (
        "geoplan plan p.csv c.csv 0 l.log l.log",
        2,
        "words not understood\n",
    ),
    (
        "geoplan migrate p.csv c.csv 0 l.log n.log n.log",
        2,
        "words not understood\n",
    ),
    (
        "geoplan trial p.csv c.csv 0 t.txt p.csv",
        2,
        "words not understood\n",
    ),
    (
        "geoplan rows p.csv c.csv s.csv",
        2,
        "words not understood\n",
    ),
];

#[test]
fn a_table_of_stations_is_refused_after_the_candidates(rt: HostRuntime) -> Result<(), Fail> {
    let alloc = rt.alloc();
    for (line, status, printed) in &REFUSED {
        let mut shelf = shelf_of(alloc, "Z,10\n", "")?;
        expect_reading(&rt, alloc, &mut shelf, line, (*status, printed));
    }
    Ok(())
}

/// Points with more unknowns than a network may have: 66.
fn many_points(alloc: Global) -> Result<String, Fail> {
    let mut points = String::from_str(alloc, "A,0.000,0.000,0.000,fixed,fixed\n")?;
    for number in 0..22 {
        let point = format!(in alloc; "P{number},{number}.000,5.000,0.000,1.0,1.0\n")?;
        points.push_str(point.as_str())?;
    }
    Ok(points)
}

#[test]
fn a_network_is_refused_after_the_stations(rt: HostRuntime) -> Result<(), Fail> {
    let alloc = rt.alloc();
    let points = many_points(alloc)?;
    let mut shelf = shelf_with(alloc, points.as_str(), "")?;
    shelf.put_file("s.csv", b"name,price\nA,x\n")?;
    let refused = (3, "table,stations,2,Number\n");
    expect_reading(&rt, alloc, &mut shelf, PLAN, refused);
    shelf.put_file("s.csv", b"name,price\nA,7\n")?;
    let refused = (3, "table,network,66,TooManyUnknowns\n");
    expect_reading(&rt, alloc, &mut shelf, PLAN, refused);
    Ok(())
}

#[test]
fn a_table_of_stations_has_at_most_1048576_bytes(rt: HostRuntime) -> Result<(), Fail> {
    let alloc = rt.alloc();
    let mut shelf = shelf_of(alloc, "", "")?;
    let mut longer = b"name,price\n".to_vec(alloc)?;
    for _ in longer.len()..1048577 {
        longer.push(b'\n')?;
    }
    shelf.put_file("s.csv", longer.as_slice())?;
    expect(&rt, alloc, &mut shelf, CHECK, (9, "too long s.csv\n"));
    assert!(rt; shelf.file("l.log") == Some(OLD_LOG));
    Ok(())
}
