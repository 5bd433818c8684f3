use geo_base::NoMemory;
use std::alloc::Global;
use table_rows::{TableRow, TableRows, first_fault_is_least, has_second_mark};

// A table, and its records with each text in brackets. The expected texts come from another program.
const TABLES: [(&[u8], &[u8]); 14] = [
    (b"", b""),
    (b"\xEF\xBB\xBF", b""),
    (b"\xEF\xBB\xBFname,x\r\nA, 1 \r\n", b"[name][x];[A][1];"),
    (b"\xEF\xBB\xBF\xEF\xBB\xBFa\n", b"[\xEF\xBB\xBFa];"),
    (b"\xEF\xBBa\n", b"[\xEF\xBBa];"),
    (
        b"name,\" x \",\"y\"\"z\",\"a,b\r\nc\"\r\nlast",
        b"[name][x][y\"z][a,b\r\nc];[last];",
    ),
    (b"a\rb\r\rc,d\n\n\r\n e \r", b"[a];[b];[c][d];[e];"),
    (
        b"a,b\n\"\"\n   \n\"  \"\n,\n\"\",\"\"\nc\n",
        b"[a][b];[][];[][];[c];",
    ),
    (b" \"q\",\"q\" ,\"q\"r, x\"y \n", b"[\"q\"][q][qr][x\"y];"),
    (b"1\n1,2\n1,2,3\n\n1\n", b"[1];[1][2];[1][2][3];[1];"),
    (b"a,\n,b\n  a  b  ,\t\n", b"[a][];[][b];[a  b][\t];"),
    (b"\"open, to the\nend ", b"[open, to the\nend];"),
    (b"\n\r\n\xEF\xBB\xBFa\n", b"[\xEF\xBB\xBFa];"),
    (b"\"\xEF\xBB\xBF\",\xFF\n", b"[\xEF\xBB\xBF][\xFF];"),
];

fn put_row(out: &mut Vec<u8>, row: &TableRow) -> Result<(), NoMemory> {
    for place in 0..row.len() {
        out.push(b'[')?;
        out.extend_from_slice(row.field(place))?;
        out.push(b']')?;
    }
    out.push(b';')?;
    Ok(())
}

fn shown(alloc: Global, bytes: &[u8]) -> Result<Vec<u8>, NoMemory> {
    let mut rows = TableRows::open(alloc, bytes);
    let mut row = TableRow::new(alloc);
    let mut out = Vec::new(alloc);
    'rows: while rows.next(&mut row)? {
        put_row(&mut out, &row)?;
    }
    Ok(out)
}

#[test]
fn tables_read_as_their_records(rt: HostRuntime) -> Result<(), NoMemory> {
    for (bytes, texts) in TABLES {
        assert!(rt; shown(rt.alloc(), bytes)?.as_slice() == texts);
    }
    Ok(())
}

// Tables, and whether record 1 is the header row `name,x`. The expected answers come from another program.
const HEADERS: [(&[u8], bool); 9] = [
    (b"name,x\nA,1\n", true),
    (b"\xEF\xBB\xBF name ,\"x\"\r\n", true),
    (b"\xEF\xBB\xBF\xEF\xBB\xBFname,x\n", false),
    (b"", false),
    (b"\n\"\"\n", false),
    (b"name,X\n", false),
    (b"name\n", false),
    (b"name,x,\n", false),
    (b"\n\nname,x\n", true),
];

#[test]
fn a_header_row_is_asked_for(rt: HostRuntime) -> Result<(), NoMemory> {
    for (bytes, is_header) in HEADERS {
        let rows = TableRows::under_header(rt.alloc(), bytes, &["name", "x"])?;
        assert!(rt; rows.is_some() == is_header);
    }
    Ok(())
}

// Records, and whether each text is UTF-8. The expected answers come from another program.
const ROWS: [(&[u8], bool); 3] = [
    (b"a,\xC3\xA9", true),
    (b"a,\xFF,b", false),
    (b"\xC3 ,\xA9", false),
];

#[test]
fn texts_are_told_from_other_bytes(rt: HostRuntime) -> Result<(), NoMemory> {
    for (bytes, is_text) in ROWS {
        let mut row = TableRow::new(rt.alloc());
        assert!(rt; TableRows::open(rt.alloc(), bytes).next(&mut row)?);
        assert!(rt; row.is_utf8() == is_text);
    }
    Ok(())
}

#[test]
fn a_second_mark_is_told(rt: HostRuntime) {
    assert!(rt; has_second_mark(b"\xEF\xBB\xBF\xEF\xBB\xBF"));
    assert!(rt; !has_second_mark(b"\xEF\xBB\xBFa\xEF\xBB\xBF"));
    first_fault_is_least();
}
