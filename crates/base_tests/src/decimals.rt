use std::test::Fail;
use text_num::{put_decimal, put_whole, read_decimal, read_digits};

#[test]
fn known_numbers(rt: HostRuntime) {
    assert_eq!(rt; read_decimal(b"-0.5", 1), Some(-5));
    assert_eq!(rt; read_decimal(b"+12", 3), Some(12000));
    assert_eq!(rt; read_decimal(b"007.250", 2), Some(725));
    assert_eq!(rt; read_decimal(b"5.0", 0), Some(5));
    assert_eq!(rt; read_decimal(b"5.1", 0), None);
    assert_eq!(rt; read_decimal(b"7.", 3), None);
    assert_eq!(rt; read_decimal(b".5", 3), None);
    assert_eq!(rt; read_decimal(b"1e3", 3), None);
    assert_eq!(rt; read_decimal(b"", 3), None);
    assert_eq!(rt; read_decimal(b"-", 3), None);
    assert_eq!(rt; read_decimal(b"999999999999.999", 3), Some(999999999999999));
    assert_eq!(rt; read_decimal(b"1000000000000", 0), None);
}

// Texts, and the number where they are at most 19 digits. The expected numbers are written down by hand.
const DIGITS: [(&[u8], Option<u64>); 8] = [
    (b"0", Some(0)),
    (b"007", Some(7)),
    (b"9999999999999999999", Some(9999999999999999999)),
    (b"10000000000000000000", None),
    (b"", None),
    (b"-1", None),
    (b"+1", None),
    (b"1.0", None),
];

#[test]
fn digits_read_as_their_number(rt: HostRuntime) {
    for (text, number) in DIGITS {
        assert!(rt; read_digits(text, 19) == number);
    }
    assert!(rt; read_digits(b"999", 3) == Some(999));
    assert!(rt; read_digits(b"1000", 3).is_none());
    assert!(rt; read_digits(b"1", 0).is_none());
}

#[test]
fn known_texts(rt: HostRuntime) -> Result<(), Fail> {
    let mut out = Vec::new(rt.alloc());
    put_decimal(&mut out, -5, 1)?;
    out.push(b' ')?;
    put_decimal(&mut out, 12034, 3)?;
    out.push(b' ')?;
    put_decimal(&mut out, 7, 0)?;
    out.push(b' ')?;
    put_whole(&mut out, -170141183460469231731687303715884105728)?;
    out.push(b' ')?;
    put_whole(&mut out, 0)?;
    assert_eq!(rt;
        out.as_slice(),
        b"-0.5 12.034 7 -170141183460469231731687303715884105728 0".as_slice()
    );
    Ok(())
}
