//! Lines of a log as texts.
use bound_log::{
    LineKind, LogLeaf, LogLine, count_line, put_cost, put_cut, put_head, put_line, put_pivot,
    put_split, read_line,
};
use cut_pool::Cut;
use geo_base::NoMemory;
use geo_model::{Counts, Displacement};
use std::alloc::Global;
use std::test::Fail;

#[test]
fn lines_are_spelled(rt: HostRuntime) -> Result<(), Fail> {
    let mut out = Vec::new(rt.alloc());
    put_head(&mut out)?;
    put_split(&mut out, 255)?;
    put_cost(&mut out)?;
    put_pivot(&mut out, 0)?;
    assert_eq!(rt;
        out.as_slice(),
        b"geoplan-log 1\ns 255\nc\np 0\n".as_slice()
    );
    Ok(())
}

// What is read of a line, put again; empty where it isn't in the grammar.
fn read_and_put(alloc: Global, line: &[u8]) -> Result<Vec<u8>, NoMemory> {
    let mut out = Vec::new(alloc);
    if let Some(read) = read_line(line) {
        put_line(&mut out, &read)?;
    }
    Ok(out)
}

#[test]
fn lines_are_read(rt: HostRuntime) -> Result<(), Fail> {
    let within: [&[u8]; 13] = [
        b"s 0\n",
        b"s 255\n",
        b"c\n",
        b"p 9999999999999999999\n",
        b"x 0 0\n",
        b"x 0 1 0 0\n",
        b"x 0 2 0 1 0 1\n",
        b"x 7 1 3 -32768\n",
        b"x 9999999999999999999 1 9999999999999999999 -9999999999999999999\n",
        b"x 0 1 0 32769\n",
        b"x 1 2 5 1 4 -1\n",
        b"d 1 0\n",
        b"d 9655953 1 50 0 1 0 1\n",
    ];
    for line in within {
        let put = read_and_put(rt.alloc(), &line[..line.len().saturating_sub(1)])?;
        assert_eq!(rt; put.as_slice(), line);
    }
    let outside: [&[u8]; 30] = [
        b"p 10000000000000000000",
        b"s 00",
        b"s  0",
        b"s",
        b"s ",
        b"s 0 ",
        b"c ",
        b" c",
        b"s -0",
        b"s +1",
        b"d 1",
        b"",
        b"S 0",
        b"p 0\r",
        b"c\n",
        b"x",
        b"x 0",
        b"x 0 1",
        b"x 0 1 0",
        b"x 0 1 0 -0",
        b"x 0 1 0 +1",
        b"x 0 1 -1 1",
        b"x 0 2 0 1",
        b"x 0 1 0 1 1 1",
        b"x 0 1  0 1",
        b"x 0 0 ",
        b"x 0 1 0 10000000000000000000",
        b"x 0 1 0 -",
        b"d 1 65",
        b"d 1 1 50 0 1 0",
    ];
    for line in outside {
        let put = read_and_put(rt.alloc(), line)?;
        assert_eq!(rt; put.len(), 0);
    }
    Ok(())
}

#[test]
fn cuts_are_put(rt: HostRuntime) -> Result<(), Fail> {
    let mut x = Displacement::new(rt.alloc(), 5)?;
    x.set(1, -32768);
    x.set(4, 7);
    let cut = Cut {
        limit: 12,
        x,
        coefficients: Vec::new(rt.alloc()),
        bound: 0,
    };
    let mut out = Vec::new(rt.alloc());
    put_cut(&mut out, &cut)?;
    assert_eq!(rt; out.as_slice(), b"x 12 2 1 -32768 4 7\n".as_slice());
    Ok(())
}

#[test]
fn lines_are_counted(rt: HostRuntime) {
    let mut counts = Counts {
        splits: 0,
        costs: u64::MAX - 1,
        pivots: u64::MAX,
        cuts: 3,
        duals: 4,
    };
    count_line(&mut counts, LogLine::Split(7).kind());
    count_line(&mut counts, LogLine::Leaf(LogLeaf::Cost).kind());
    count_line(&mut counts, LogLine::Leaf(LogLeaf::Pivot(0)).kind());
    count_line(&mut counts, LineKind::Cut);
    assert_eq!(rt; (counts.splits, counts.costs), (1, u64::MAX));
    assert_eq!(rt;
        (counts.pivots, counts.cuts, counts.duals),
        (u64::MAX, 4, 4)
    );
}
