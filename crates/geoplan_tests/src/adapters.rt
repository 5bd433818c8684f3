//! A run of the adapters over a file and the standard output.
use shelf_io::{FileShelf, OutSink, Shelf, Sink};
use std::fs;
use std::test::Fail;

#[test]
fn adapters_read_what_they_wrote(rt: HostRuntime) -> Result<(), Fail> {
    let mut shelf = FileShelf::new(&rt, rt.alloc());
    let name = "adapters.txt";
    if shelf.start(name).is_ok() && shelf.append(name, b"two ").is_ok() {
        assert!(rt; shelf.append(name, b"pieces").is_ok());
    }
    let mut bytes = Vec::new(rt.alloc());
    assert!(rt; shelf.read_whole(name, 10, &mut bytes).is_ok());
    assert_eq!(rt; bytes.as_slice(), b"two pieces".as_slice());
    assert!(rt; shelf.read_whole(name, 9, &mut bytes).is_err());
    assert!(rt; shelf.read_whole("no such file", 10, &mut bytes).is_err());
    let mut out = OutSink::new(&rt);
    assert!(rt; out.put(b"printed\n").is_ok());
    Ok(())
}

#[test]
fn a_table_is_not_overwritten_under_another_name(rt: HostRuntime) -> Result<(), Fail> {
    let _new = fs::write(&rt, "table.csv", b"name,kind\n");
    let _link = fs::hard_link(&rt, "table.csv", "link.csv");
    let mut shelf = FileShelf::new(&rt, rt.alloc());
    let mut bytes = Vec::new(rt.alloc());
    assert!(rt; shelf.read_whole("table.csv", 100, &mut bytes).is_ok());
    for name in ["./table.csv", "link.csv"] {
        assert!(rt; shelf.start(name).is_err());
    }
    bytes.clear();
    assert!(rt; shelf.read_whole("link.csv", 100, &mut bytes).is_ok());
    assert_eq!(rt; bytes.as_slice(), b"name,kind\n".as_slice());
    assert!(rt; shelf.start("log.txt").is_ok());
    assert!(rt; shelf.start("./log.txt").is_err());
    Ok(())
}
