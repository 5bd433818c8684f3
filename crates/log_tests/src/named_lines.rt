//! Lines of a log of format 2 as texts.
use bound_log::{
    LogFormat, NamedLine, head_format, put_cost, put_dual2, put_head2, put_named, put_named_text,
    put_pivot, put_split, put_use, read_line2,
};
use cut_pool::{Cut, Share};
use geo_base::NoMemory;
use geo_model::Displacement;
use std::alloc::Global;
use std::test::Fail;

// The numbers that are read of a line, in the order of its text; none where it isn't in the
// grammar.
fn numbers_read(alloc: Global, line: &[u8]) -> Result<Option<Vec<i128>>, NoMemory> {
    let Some(read) = read_line2(line) else {
        return Ok(None);
    };
    let mut numbers = Vec::new(alloc);
    match read {
        NamedLine::Split(number) | NamedLine::Pivot(number) | NamedLine::UseCut(number) => {
            numbers.push(number as i128)?;
        }
        NamedLine::Cost => (),
        NamedLine::Named(cut) => {
            numbers.push(cut.limit() as i128)?;
            numbers.push(cut.count() as i128)?;
            for (unknown, by) in cut.pairs() {
                numbers.push(unknown as i128)?;
                numbers.push(by)?;
            }
        }
        NamedLine::UseDual(divisor, uses) => {
            numbers.push(divisor as i128)?;
            numbers.push(uses.count() as i128)?;
            for (multiplier, cut) in uses.pairs() {
                numbers.push(multiplier as i128)?;
                numbers.push(cut as i128)?;
            }
        }
    }
    Ok(Some(numbers))
}

// Lines of the grammar with their numbers.
const WITHIN: [(&[u8], &[i128]); 12] = [
    (b"s 255", &[255]),
    (b"c", &[]),
    (b"p 9999999999999999999", &[9_999_999_999_999_999_999]),
    (b"k 0 0", &[0, 0]),
    (b"k 0 1 0 1", &[0, 1, 0, 1]),
    (b"k 7 1 3 -32769", &[7, 1, 3, -32769]),
    (b"k 2 2 5 1 4 -7", &[2, 2, 5, 1, 4, -7]),
    (b"x 0", &[0]),
    (b"x 65536", &[65536]),
    (b"d 1 0", &[1, 0]),
    (b"d 9655953 1 50 0", &[9_655_953, 1, 50, 0]),
    (b"d 1000 2 50 0 7 3", &[1000, 2, 50, 0, 7, 3]),
];

// Texts outside the grammar.
const OUTSIDE: [&[u8]; 22] = [
    b"",
    b"k",
    b"k 0",
    b"k 0 1",
    b"k 0 1 0",
    b"k 0 1 0 -0",
    b"k 0 1 0 1 1 1",
    b"k  0 0",
    b"K 0 0",
    b"x",
    b"x ",
    b"x 00",
    b"x -1",
    b"x 0 ",
    b"x 0 1 0 1",
    b"x 0\n",
    b"d 1",
    b"d 1 1 50",
    b"d 1 1 50 0 1 0 1",
    b"d 1 1 50 -0",
    b"d 1 65",
    b"x 10000000000000000000",
];

#[test]
fn named_lines_are_read(rt: HostRuntime) -> Result<(), Fail> {
    for (line, numbers) in WITHIN {
        match numbers_read(rt.alloc(), line)? {
            Some(read) => assert_eq!(rt; read.as_slice(), numbers),
            None => assert_eq!(rt; line.len(), 0),
        }
    }
    for line in OUTSIDE {
        let outside = numbers_read(rt.alloc(), line)?.is_none();
        assert_eq!(rt; outside, true);
    }
    Ok(())
}

#[test]
fn named_lines_are_put(rt: HostRuntime) -> Result<(), Fail> {
    let mut x = Displacement::new(rt.alloc(), 5)?;
    x.set(1, -32768);
    x.set(4, 7);
    let cut = Cut {
        limit: 12,
        x,
        coefficients: Vec::new(rt.alloc()),
        bound: 0,
    };
    let shares = [Share { y: 50, cut: 0 }, Share { y: 7, cut: 65535 }];
    let mut out = Vec::new(rt.alloc());
    put_head2(&mut out)?;
    put_split(&mut out, 0)?;
    put_named(&mut out, &cut)?;
    put_use(&mut out, 65535)?;
    if let Some(NamedLine::Named(read)) = read_line2(b"k 7 1 3 -1".as_slice()) {
        put_named_text(&mut out, &read)?;
    }
    put_dual2(&mut out, 9_655_953, shares.as_slice())?;
    put_dual2(&mut out, 1, &[])?;
    put_cost(&mut out)?;
    put_pivot(&mut out, 3)?;
    assert_eq!(rt;
        out.as_slice(),
        b"geoplan-log 2\ns 0\nk 12 2 1 -32768 4 7\nx 65535\nk 7 1 3 -1\nd 9655953 2 50 0 7 65535\nd 1 0\nc\np 3\n".as_slice()
    );
    Ok(())
}

// Texts, and the format of which each is the first line.
const FIRST_LINES: [(&[u8], Option<LogFormat>); 6] = [
    (b"geoplan-log 1", Some(LogFormat::First)),
    (b"geoplan-log 2", Some(LogFormat::Second)),
    (b"geoplan-log 3", None),
    (b"geoplan-log 2\n", None),
    (b"geoplan-log 2\r", None),
    (b"", None),
];

#[test]
fn the_first_line_tells_the_format(rt: HostRuntime) {
    for (text, format) in FIRST_LINES {
        assert_eq!(rt; head_format(text), format);
    }
}
