//! Logs of small networks of one new height, with levels of 1.00 mm to it. What they prove, and where
//! they are wrong, was reckoned by an independent program.
use geo_base::NoMemory;
use geo_model::{Counts, Network};
use log_check::{Bound, LogFault, LogKind, ReplayAnswer, Replayed, replay};
use std::alloc::Global;
use std::test::Fail;
use test_networks::{CLOSER_LEVEL, LEVELLING_LINE, ONE_LEVEL, TOO_REDUNDANT, network_of};

/// A replay, of which a proof here need know nothing.
pub fn replayed(alloc: Global, network: &Network, log: &[u8]) -> Result<Replayed, ReplayAnswer> {
    replay(alloc, network, log)
}

/// The first fault of a text.
pub fn fault(line: u64, kind: LogKind) -> Result<Replayed, ReplayAnswer> {
    Err(ReplayAnswer::Fault(LogFault { line, kind }))
}

/// The bound of a log, and how many splits, cost, pivot and cut leaves it has.
pub fn accepted(
    bound: Bound,
    [splits, costs, pivots, cuts]: [u64; 4],
) -> Result<Replayed, ReplayAnswer> {
    Ok(Replayed {
        bound,
        counts: Counts {
            splits,
            costs,
            pivots,
            cuts,
            duals: 0,
        },
    })
}

// A log of two levels.
const WHOLE: &[u8] = b"geoplan-log 1\ns 0\np 1\ns 1\np 2\np 0\n";

/// Logs of two levels, what each proves, and how many splits, cost, pivot and cut leaves it has.
pub const LOGS: [(&[u8], Bound, [u64; 4]); 4] = [
    (WHOLE, Bound::NoPlan, [2, 0, 3, 0]),
    (
        b"geoplan-log 1\ns 0\nc\ns 1\nc\np 0\n",
        Bound::AtLeast(5),
        [2, 2, 1, 0],
    ),
    (
        b"geoplan-log 1\ns 1\nc\ns 0\np 1\np 0\n",
        Bound::AtLeast(7),
        [2, 1, 2, 0],
    ),
    (
        b"geoplan-log 1\ns 1\ns 0\nc\nc\nc\n",
        Bound::AtLeast(0),
        [2, 3, 0, 0],
    ),
];

#[test]
fn logs_of_two_levels(rt: HostRuntime) -> Result<(), Fail> {
    let network = network_of(rt.alloc(), &TOO_REDUNDANT)?;
    for (log, bound, counts) in LOGS {
        let expected = accepted(bound, counts);
        assert_eq!(rt; replayed(rt.alloc(), &network, log), expected);
    }
    Ok(())
}

// What a replay of the front of a log says: its last line has no LF, or a node is open after it.
fn cut_off(front: &[u8]) -> Result<Replayed, ReplayAnswer> {
    let ended = front.iter().filter(|c| **c == b'\n').count() as u64;
    if front.last() == Some(&b'\n') {
        fault(ended + 1, LogKind::Short)
    } else {
        fault(ended + 1, LogKind::Form)
    }
}

#[test]
fn logs_that_are_cut_off(rt: HostRuntime) -> Result<(), Fail> {
    let network = network_of(rt.alloc(), &TOO_REDUNDANT)?;
    for end in 0..WHOLE.len() {
        let front = &WHOLE[..end];
        assert_eq!(rt; replayed(rt.alloc(), &network, front), cut_off(front));
    }
    Ok(())
}

/// Texts that are no log of two levels: the line and the kind of the first fault.
pub const FAULTS: [(&[u8], u64, LogKind); 30] = [
    (b"", 1, LogKind::Form),
    (b"geoplan-log 1", 1, LogKind::Form),
    (b"geoplan-log 1\n", 2, LogKind::Short),
    (
        b"geoplan-log 1\ns 0\np 1\ns 1\np 2\np 0\nc\n",
        7,
        LogKind::Extra,
    ),
    (
        b"geoplan-log 1\ns 0\np 1\ns 1\np 2\np 0\nc",
        7,
        LogKind::Extra,
    ),
    (b"geoplan-log 1\np 1\n", 2, LogKind::Owner),
    (b"geoplan-log 1\ns 0\np 1\ns 0\n", 4, LogKind::NotOpen),
    (b"geoplan-log 1\ns 0\ns 0\n", 3, LogKind::NotOpen),
    (b"geoplan-log 1\ns 0\nc\np 0\n", 4, LogKind::NotRefuted),
    (b"geoplan-log 1\ns 2\n", 2, LogKind::Range),
    (b"geoplan-log 1\np 3\n", 2, LogKind::Range),
    (b"geoplan-log 1\ns 9999999999999999999\n", 2, LogKind::Range),
    (b"geoplan-log 1\np 9999999999999999999\n", 2, LogKind::Range),
    (b"geoplan-log 1\ns 10000000000000000000\n", 2, LogKind::Form),
    (b"geoplan-log 1\np 10000000000000000000\n", 2, LogKind::Form),
    (b"geoplan-log 1\np 00\n", 2, LogKind::Form),
    (b"geoplan-log 1\ns 00\n", 2, LogKind::Form),
    (b"geoplan-log 1\ns  0\n", 2, LogKind::Form),
    (b"geoplan-log 1\ns 0\r\n", 2, LogKind::Form),
    (b"geoplan-log 1\n\n", 2, LogKind::Form),
    (b"geoplan-log 1\nx 0 1 0 1\n", 2, LogKind::CutHolds),
    (b"geoplan-log 1\nx 0 0\n", 2, LogKind::CutHolds),
    (b"geoplan-log 1\nx 1 1 0 1\n", 2, LogKind::Owner),
    (b"geoplan-log 1\nx 3 1 0 1\n", 2, LogKind::Range),
    (b"geoplan-log 1\nx 0 1 1 1\n", 2, LogKind::Range),
    (b"geoplan-log 1\nx 0 1 0 0\n", 2, LogKind::Range),
    (b"geoplan-log 1\nx 0 1 0 32769\n", 2, LogKind::Range),
    (b"geoplan-log 1\ns 0\nx 1 1 0 1\n", 4, LogKind::Short),
    (b"geoplan-log 1\nd 1\n", 2, LogKind::Form),
    (b"geoplan-log 3\ns 0\n", 1, LogKind::Form),
];

#[test]
fn logs_with_a_fault(rt: HostRuntime) -> Result<(), Fail> {
    let network = network_of(rt.alloc(), &TOO_REDUNDANT)?;
    for (log, line, kind) in FAULTS {
        assert_eq!(rt; replayed(rt.alloc(), &network, log), fault(line, kind));
    }
    Ok(())
}

// A level that meets its limit, so that nothing is refuted.
#[test]
fn a_log_of_a_level_that_is_wide_enough(rt: HostRuntime) -> Result<(), Fail> {
    let network = network_of(rt.alloc(), &ONE_LEVEL)?;
    let refuted = b"geoplan-log 1\np 0\n".as_slice();
    let expected = fault(2, LogKind::NotRefuted);
    assert_eq!(rt; replayed(rt.alloc(), &network, refuted), expected);
    Ok(())
}

#[test]
fn logs_of_a_level_that_misses_its_limit(rt: HostRuntime) -> Result<(), Fail> {
    let network = network_of(rt.alloc(), &CLOSER_LEVEL)?;
    for (log, expected) in [
        (
            b"geoplan-log 1\np 0\n".as_slice(),
            accepted(Bound::NoPlan, [0, 0, 1, 0]),
        ),
        (b"geoplan-log 1\np 0".as_slice(), fault(2, LogKind::Form)),
        (
            b"geoplan-log 1\nc\n".as_slice(),
            accepted(Bound::AtLeast(0), [0, 1, 0, 0]),
        ),
        (
            b"geoplan-log 1\nx 0 1 0 1\n".as_slice(),
            accepted(Bound::NoPlan, [0, 0, 0, 1]),
        ),
        (
            b"geoplan-log 1\nx 0 1 0 -3\n".as_slice(),
            accepted(Bound::NoPlan, [0, 0, 0, 1]),
        ),
    ] {
        assert_eq!(rt; replayed(rt.alloc(), &network, log), expected);
    }
    Ok(())
}

// First lines of logs of a line of four heights, and what is wrong with each, by hand. All levels
// meet each limit, the last one with equality: the moves by 1 to 4 are those that come closest.
const DISPLACEMENTS: [(&[u8], LogKind); 12] = [
    (b"geoplan-log 1\nx 3 2 1 1 0 1\n", LogKind::Range),
    (b"geoplan-log 1\nx 3 2 0 1 0 1\n", LogKind::Range),
    (b"geoplan-log 1\nx 3 3 0 1 2 1 1 1\n", LogKind::Range),
    (b"geoplan-log 1\nx 3 1 4 1\n", LogKind::Range),
    (b"geoplan-log 1\nx 3 1 0 -32769\n", LogKind::Range),
    (b"geoplan-log 1\nx 3 2 0 1 1 0\n", LogKind::Range),
    (
        b"geoplan-log 1\nx 3 5 0 1 1 1 2 1 3 1 4 1\n",
        LogKind::Range,
    ),
    (b"geoplan-log 1\nx 4 1 0 1\n", LogKind::Range),
    (b"geoplan-log 1\nx 3 4 0 1 1 2 2 3 3 4\n", LogKind::CutHolds),
    (
        b"geoplan-log 1\nx 3 4 0 32768 1 -32768 2 1 3 -1\n",
        LogKind::CutHolds,
    ),
    (b"geoplan-log 1\nx 3 2 0 1 1 -0\n", LogKind::Form),
    (b"geoplan-log 1\nx 3 2 0 1\n", LogKind::Form),
];

#[test]
fn displacements_with_a_fault(rt: HostRuntime) -> Result<(), Fail> {
    let network = network_of(rt.alloc(), &LEVELLING_LINE)?;
    for (log, kind) in DISPLACEMENTS {
        assert_eq!(rt; replayed(rt.alloc(), &network, log), fault(2, kind));
    }
    Ok(())
}

// Where the last level is left out, by hand: its height moves alone; or all move, where the energy
// of three levels whose ends move apart by 2 each is 48 times the load of a move of the last height
// by 1, the load of a move by 7 is 49 times as much, and that of one by 6 only 36 times.
#[test]
fn displacements_without_a_level(rt: HostRuntime) -> Result<(), Fail> {
    let network = network_of(rt.alloc(), &LEVELLING_LINE)?;
    for (log, expected) in [
        (
            b"geoplan-log 1\ns 3\nc\nx 3 1 3 -1\n".as_slice(),
            accepted(Bound::AtLeast(5), [1, 1, 0, 1]),
        ),
        (
            b"geoplan-log 1\ns 3\nc\nx 3 4 0 2 1 4 2 6 3 7\n".as_slice(),
            accepted(Bound::AtLeast(5), [1, 1, 0, 1]),
        ),
        (
            b"geoplan-log 1\ns 3\nc\nx 3 4 0 2 1 4 2 6 3 -6\n".as_slice(),
            fault(4, LogKind::CutHolds),
        ),
    ] {
        assert_eq!(rt; replayed(rt.alloc(), &network, log), expected);
    }
    Ok(())
}

// A head, so many times the same part, and the end of a line.
fn repeated(alloc: Global, head: &[u8], part: &[u8], count: u32) -> Result<Vec<u8>, NoMemory> {
    let mut log = head.to_vec(alloc)?;
    for _ in 0..count {
        log.extend_from_slice(part)?;
    }
    log.push(b'\n')?;
    Ok(log)
}

// 64 shares of 1 are as one of 64, where the divisor is 16 times each coefficient and bound: both
// levels cost more than they take off, and the dual bound is 64 / 16, by hand.
#[test]
fn lines_of_64_shares_and_of_64_pairs(rt: HostRuntime) -> Result<(), Fail> {
    let alloc = rt.alloc();
    let network = network_of(alloc, &TOO_REDUNDANT)?;
    let share = b" 1 0 1 0 1".as_slice();
    let log = repeated(alloc, b"geoplan-log 1\nd 190734848 64", share, 64)?;
    let mut counts = Counts::none();
    counts.duals = 1;
    let bound = Bound::AtLeast(4);
    let accepted = Ok(Replayed { bound, counts });
    assert_eq!(rt; replayed(alloc, &network, log.as_slice()), accepted);
    let log = repeated(alloc, b"geoplan-log 1\nd 190734848 65", share, 65)?;
    let range = fault(2, LogKind::Range);
    assert_eq!(rt; replayed(alloc, &network, log.as_slice()), range);
    let log = repeated(alloc, b"geoplan-log 1\nx 0 64", b" 0 1", 64)?;
    assert_eq!(rt; replayed(alloc, &network, log.as_slice()), range);
    Ok(())
}
