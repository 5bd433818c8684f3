//! Command lines that are accepted and refused.
use crate::fixtures::{HEIGHTS, ONE_LEVEL, answered, expect_reading, expect_report, shelf_with};
use geoplan::Words;
use shelf_io::MemSink;
use std::test::Fail;

const REFUSED: [&str; 27] = [
    "geoplan",
    "geoplan plan --help",
    "geoplan plan p.csv c.csv 1000 l.log",
    "geoplan plan p.csv c.csv 0000 l.log",
    "geoplan plan p.csv c.csv -1 l.log",
    "geoplan plan p.csv c.csv 5a l.log",
    "geoplan plan p.csv c.csv  l.log",
    "geoplan plan p.csv p.csv 0 l.log",
    "geoplan plan p.csv c.csv 0 c.csv",
    "geoplan plan p.csv c.csv 0",
    "geoplan plan p.csv c.csv 0 l.log c.csv",
    "geoplan plan p.csv c.csv 0 l.log s.csv x.csv",
    "geoplan Plan p.csv c.csv 0 l.log",
    "geoplan check p.csv c.csv 0 p.csv",
    "geoplan rows p.csv",
    "geoplan rows p.csv p.csv",
    "geoplan rows p.csv c.csv 0",
    "geoplan gen 7 p.csv",
    "geoplan gen 7 p.csv p.csv",
    "geoplan gen 1000000 p.csv c.csv",
    "geoplan gen 7a p.csv c.csv",
    "geoplan gen -7 p.csv c.csv",
    "geoplan gen p.csv c.csv 7",
    "geoplan bench",
    "geoplan bench 7 8",
    "geoplan bench 0000007",
    "geoplan bench +7",
];

#[test]
fn words_are_refused(rt: HostRuntime) -> Result<(), Fail> {
    let alloc = rt.alloc();
    for line in REFUSED {
        let mut shelf = shelf_with(alloc, HEIGHTS, ONE_LEVEL)?;
        let refused = (2, "words not understood\n");
        expect_reading(&rt, alloc, &mut shelf, line, refused);
    }
    Ok(())
}

#[test]
fn no_words_are_refused(rt: HostRuntime) -> Result<(), Fail> {
    let alloc = rt.alloc();
    let mut shelf = shelf_with(alloc, HEIGHTS, ONE_LEVEL)?;
    let mut out = MemSink::new(alloc, Vec::new(alloc));
    let status = answered(alloc, &Words::new(alloc), &mut shelf, &mut out);
    assert_eq!(rt; status, 2);
    assert_eq!(rt; out.bytes(), b"words not understood\n".as_slice());
    Ok(())
}

#[test]
fn a_redundancy_has_up_to_three_digits(rt: HostRuntime) -> Result<(), Fail> {
    let alloc = rt.alloc();
    let mut shelf = shelf_with(alloc, HEIGHTS, ONE_LEVEL)?;
    let none = (1, "no plan\nlog,", "\nbound none\n");
    let plan = "geoplan plan p.csv c.csv 007 l.log";
    expect_report(&rt, alloc, &mut shelf, plan, none);
    Ok(())
}
