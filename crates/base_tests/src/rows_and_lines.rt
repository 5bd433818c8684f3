use geo_base::NoMemory;
use lent_parts::{Line, Token, Tri, lines, tokens};

#[test]
fn rows_of_a_triangle(rt: HostRuntime) -> Result<(), NoMemory> {
    let mut tri = Tri::new(rt.alloc(), 3)?;
    assert_eq!(rt; tri.size(), 3);
    tri.row_mut(1)[1] = -5;
    tri.row_mut(0)[2] = 7;
    tri.row_mut(1)[0] = 4;
    assert_eq!(rt; tri.row(0), [0i128, 0, 7].as_slice());
    assert_eq!(rt; tri.row(1), [4i128, -5].as_slice());
    assert_eq!(rt; tri.row(2), [0i128].as_slice());
    Ok(())
}

#[test]
fn rows_before_a_row(rt: HostRuntime) -> Result<(), NoMemory> {
    let mut tri = Tri::new(rt.alloc(), 3)?;
    tri.row_mut(0)[2] = 7;
    tri.row_mut(1)[0] = 4;
    let (before, row) = tri.rows_before(2);
    row[0] = before.row(0)[2] - before.row(1)[0];
    assert_eq!(rt; tri.row(0), [0i128, 0, 7].as_slice());
    assert_eq!(rt; tri.row(2), [3i128].as_slice());
    Ok(())
}

#[test]
fn tokens_between_single_spaces(rt: HostRuntime) {
    let mut walk = tokens(b"d 17  x");
    assert_eq!(rt;
        walk.next(),
        Some(Token {
            text: b"d".as_slice(),
            start: 0
        })
    );
    assert_eq!(rt;
        walk.next(),
        Some(Token {
            text: b"17".as_slice(),
            start: 2
        })
    );
    assert_eq!(rt;
        walk.next(),
        Some(Token {
            text: b"".as_slice(),
            start: 5
        })
    );
    assert_eq!(rt;
        walk.next(),
        Some(Token {
            text: b"x".as_slice(),
            start: 6
        })
    );
    assert_eq!(rt; walk.next(), None);
    assert_eq!(rt; walk.next(), None);
    assert_eq!(rt; tokens(b"").count(), 1);
    assert_eq!(rt; tokens(b" ").count(), 2);
}

#[test]
fn lines_cut_at_their_ends(rt: HostRuntime) {
    let mut walk = lines(b"c\r\n\np 0");
    assert_eq!(rt;
        walk.next(),
        Some(Line {
            text: b"c\r".as_slice(),
            ended: true
        })
    );
    assert_eq!(rt;
        walk.next(),
        Some(Line {
            text: b"".as_slice(),
            ended: true
        })
    );
    assert_eq!(rt;
        walk.next(),
        Some(Line {
            text: b"p 0".as_slice(),
            ended: false
        })
    );
    assert_eq!(rt; walk.next(), None);
    assert_eq!(rt; walk.next(), None);
    assert_eq!(rt; lines(b"").count(), 0);
    assert_eq!(rt; lines(b"c\n").count(), 1);
}

// The place where the last token of a line begins.
fn last_start(line: &[u8]) -> u64 {
    let mut last = 0;
    for token in tokens(line) {
        last = token.start;
    }
    last
}

#[test]
fn walks_in_a_loop(rt: HostRuntime) {
    let mut last = 0;
    for line in lines(b"s 1\nc\nx 0 1") {
        last = last_start(line.text);
    }
    assert_eq!(rt; last, 4);
}
