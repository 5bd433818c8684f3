//! Logs that are handed in in pieces: what comes of them is what comes of the whole logs.
use crate::replays::{FAULTS, LOGS, accepted, fault};
use geo_model::Network;
use log_check::{LogFault, LogKind, ReplayAnswer, Replayed, Replayer};
use std::alloc::Global;
use std::test::Fail;
use test_networks::{TOO_REDUNDANT, network_of};

// What is answered after a piece, of which a proof here need know nothing.
fn fed(replayer: &mut Replayer<'_>, piece: &[u8]) -> Result<(), ReplayAnswer> {
    replayer.feed(piece)
}

/// What comes of a log in pieces of so many bytes. A fault stays, and is answered again at the end.
pub fn in_pieces(
    alloc: Global,
    network: &Network,
    log: &[u8],
    size: usize,
) -> Result<Replayed, ReplayAnswer> {
    let mut replayer = Replayer::new(alloc, network)?;
    for piece in log.chunks(size.max(1)) {
        if let Err(ReplayAnswer::NoMemory) = fed(&mut replayer, piece) {
            return Err(ReplayAnswer::NoMemory);
        }
    }
    match replayer.finish() {
        Ok(done) => Ok(done),
        Err(fault) => Err(ReplayAnswer::Fault(fault)),
    }
}

/// The sizes of the pieces.
pub const SIZES: [usize; 4] = [1, 2, 7, 65536];

#[test]
fn logs_in_pieces(rt: HostRuntime) -> Result<(), Fail> {
    let network = network_of(rt.alloc(), &TOO_REDUNDANT)?;
    for (log, bound, counts) in LOGS {
        for size in SIZES {
            let whole = accepted(bound, counts);
            assert_eq!(rt; in_pieces(rt.alloc(), &network, log, size), whole);
        }
    }
    Ok(())
}

#[test]
fn faults_in_pieces(rt: HostRuntime) -> Result<(), Fail> {
    let network = network_of(rt.alloc(), &TOO_REDUNDANT)?;
    for (log, line, kind) in FAULTS {
        for size in SIZES {
            let whole = fault(line, kind);
            assert_eq!(rt; in_pieces(rt.alloc(), &network, log, size), whole);
        }
    }
    Ok(())
}

#[test]
fn a_line_of_two_pieces_is_one(rt: HostRuntime) -> Result<(), Fail> {
    let network = network_of(rt.alloc(), &TOO_REDUNDANT)?;
    let mut replayer = Replayer::new(rt.alloc(), &network)?;
    assert_eq!(rt; fed(&mut replayer, b"geoplan-log 1\ns"), Ok(()));
    assert_eq!(rt; fed(&mut replayer, b" 0\n"), Ok(()));
    let short = LogFault {
        line: 3,
        kind: LogKind::Short,
    };
    assert_eq!(rt; replayer.finish(), Err(short));
    Ok(())
}

// The fault of a line is answered from the piece on in which the line ends.
#[test]
fn a_fault_stays(rt: HostRuntime) -> Result<(), Fail> {
    let network = network_of(rt.alloc(), &TOO_REDUNDANT)?;
    let mut replayer = Replayer::new(rt.alloc(), &network)?;
    let range = LogFault {
        line: 2,
        kind: LogKind::Range,
    };
    assert_eq!(rt; fed(&mut replayer, b"geoplan-log 1\ns 2"), Ok(()));
    for piece in [b"\nc".as_slice(), b"\nq\n", b""] {
        let answer = fed(&mut replayer, piece);
        assert_eq!(rt; answer, Err(ReplayAnswer::Fault(range)));
    }
    assert_eq!(rt; replayer.finish(), Err(range));
    Ok(())
}
