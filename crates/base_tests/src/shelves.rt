//! The forms in memory, where their calls fail and where they don't.

use shelf_io::{
    MemShelf, MemSink, PartAnswer, ReadAnswer, Shelf, Sink, SureShelf, SureSink, WriteAnswer,
};
use std::test::Fail;

/// Starts a log and adds two lines to it.
fn write_log<H: Shelf>(shelf: &mut H) -> Result<(), WriteAnswer> {
    shelf.start("log")?;
    shelf.append("log", b"split 1\n")?;
    shelf.append("log", b"costs\n!")?;
    Ok(())
}

#[test]
fn writes_fail_where_they_are_told_to(rt: HostRuntime) -> Result<(), Fail> {
    for (failing, answer, held) in [
        (0, Ok(()), "split 1\ncosts\n!"),
        (1, Err(WriteAnswer::Failed), "old"),
        (2, Err(WriteAnswer::Failed), "spli"),
        (3, Err(WriteAnswer::Failed), "split 1\ncos"),
        (4, Ok(()), "split 1\ncosts\n!"),
    ] {
        let mut shelf = MemShelf::new(rt.alloc(), vec![in rt.alloc(); failing]?);
        shelf.put_file("log", b"old")?;
        shelf.put_file("other", b"kept")?;
        assert_eq!(rt; write_log(&mut shelf), answer, "call {failing}");
        assert_eq!(rt; shelf.file("log"), Some(held.as_bytes()), "call {failing}");
        assert_eq!(rt; shelf.file("other"), Some(b"kept".as_slice()));
        assert_eq!(rt; shelf.file("none"), None);
    }
    Ok(())
}

#[test]
fn reads_fail_where_they_are_told_to(rt: HostRuntime) -> Result<(), Fail> {
    let mut shelf = MemShelf::new(rt.alloc(), vec![in rt.alloc(); 3]?);
    shelf.put_file("log", b"12345")?;
    let mut into = vec![in rt.alloc(); b'<']?;
    for (name, limit, answer) in [
        ("log", 4, Err(ReadAnswer::TooLong)),
        ("log", 5, Ok(())),
        ("log", 5, Err(ReadAnswer::Failed)),
        ("none", 5, Err(ReadAnswer::Failed)),
    ] {
        assert_eq!(rt; shelf.read_whole(name, limit, &mut into), answer);
    }
    assert_eq!(rt; into.as_slice(), b"<12345".as_slice());
    Ok(())
}

#[test]
fn parts_are_read_from_a_place_on(rt: HostRuntime) -> Result<(), Fail> {
    let mut shelf = MemShelf::new(rt.alloc(), vec![in rt.alloc(); 6]?);
    shelf.put_file("log", b"1234567")?;
    let mut into = vec![in rt.alloc(); b'<']?;
    for (name, at, answer) in [
        ("log", 0, Ok(3)),
        ("log", 3, Ok(3)),
        ("log", 6, Ok(1)),
        ("log", 7, Ok(0)),
        ("log", 1000, Ok(0)),
        ("log", 0, Err(PartAnswer::Failed)),
        ("none", 0, Err(PartAnswer::Failed)),
    ] {
        assert_eq!(rt;
            shelf.read_part(name, at, 3, &mut into),
            answer,
            "{name} at {at}"
        );
    }
    assert_eq!(rt; into.as_slice(), b"<1234567".as_slice());
    let mut sure = SureShelf::new(rt.alloc());
    sure.put_file("log", b"12")?;
    assert_eq!(rt; sure.read_part("log", 1, 65536, &mut into), Ok(1));
    assert_eq!(rt; sure.read_part("none", 0, 1, &mut into), Ok(0));
    Ok(())
}

#[test]
fn a_sure_shelf_reads_a_name_that_is_not_held_as_empty(rt: HostRuntime) -> Result<(), Fail> {
    let mut shelf = SureShelf::new(rt.alloc());
    shelf.put_file("log", b"old")?;
    shelf.put_file("other", b"12345")?;
    assert_eq!(rt; write_log(&mut shelf), Ok(()));
    let mut into = vec![in rt.alloc(); b'<']?;
    for (name, limit, answer) in [
        ("other", 4, Err(ReadAnswer::TooLong)),
        ("other", 5, Ok(())),
        ("none", 0, Ok(())),
    ] {
        assert_eq!(rt; shelf.read_whole(name, limit, &mut into), answer);
    }
    assert_eq!(rt; into.as_slice(), b"<12345".as_slice());
    assert_eq!(rt; shelf.file("log"), Some(b"split 1\ncosts\n!".as_slice()));
    assert_eq!(rt; shelf.file("none"), None);
    Ok(())
}

#[test]
fn puts_fail_where_they_are_told_to(rt: HostRuntime) -> Result<(), Fail> {
    let mut out = MemSink::new(rt.alloc(), vec![in rt.alloc(); 2]?);
    assert_eq!(rt; out.put(b"plan\n"), Ok(()));
    assert_eq!(rt; out.put(b"cost\n"), Err(WriteAnswer::Failed));
    assert_eq!(rt; out.put(b"!"), Ok(()));
    assert_eq!(rt; out.bytes(), b"plan\nco!".as_slice());
    let mut sure_out = SureSink::new(rt.alloc());
    assert_eq!(rt; sure_out.put(b"plan\n"), Ok(()));
    assert_eq!(rt; sure_out.bytes(), b"plan\n".as_slice());
    Ok(())
}
