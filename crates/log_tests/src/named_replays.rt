//! Logs of format 2, of small networks of one new height. What they prove, and where they are wrong,
//! was reckoned by an independent program.
use crate::pieces::{SIZES, in_pieces};
use crate::replays::{fault, replayed};
use geo_model::Counts;
use log_check::{Bound, LogKind, ReplayAnswer, Replayed};
use std::alloc::Global;
use std::test::Fail;
use test_networks::{
    CLOSER_LEVEL, CaseTables, ONE_DEAR_LEVEL, TOO_REDUNDANT, TWO_LEVELS, network_of,
};

// The bound of a log, and how many splits, cost, pivot, cut and dual leaves it has.
fn proving(
    bound: Bound,
    [splits, costs, pivots, cuts, duals]: [u64; 5],
) -> Result<Replayed, ReplayAnswer> {
    Ok(Replayed {
        bound,
        counts: Counts {
            splits,
            costs,
            pivots,
            cuts,
            duals,
        },
    })
}

// Logs, what each proves, and its lines by their kinds.
const NAMED_LOGS: [(&CaseTables, &[u8], Bound, [u64; 5]); 6] = [
    (
        &CLOSER_LEVEL,
        b"geoplan-log 2\nk 0 1 0 1\nx 0\n",
        Bound::NoPlan,
        [0, 0, 0, 1, 0],
    ),
    (
        &TOO_REDUNDANT,
        b"geoplan-log 2\ns 0\np 1\ns 1\np 2\np 0\n",
        Bound::NoPlan,
        [2, 0, 3, 0, 0],
    ),
    (
        &TOO_REDUNDANT,
        b"geoplan-log 2\nd 1 0\n",
        Bound::AtLeast(0),
        [0, 0, 0, 0, 1],
    ),
    (
        &ONE_DEAR_LEVEL,
        b"geoplan-log 2\nk 0 1 0 1\ns 0\ns 1\nc\ns 2\nc\np 0\nd 9655953 1 50 0\n",
        Bound::AtLeast(2),
        [3, 2, 1, 0, 1],
    ),
    (
        &TWO_LEVELS,
        b"geoplan-log 2\ns 0\nk 0 1 0 1\nd 9655953 1 50 0\np 0\n",
        Bound::AtLeast(13),
        [1, 0, 1, 0, 1],
    ),
    (
        &TWO_LEVELS,
        b"geoplan-log 2\ns 0\nk 0 1 0 2\nk 0 1 0 1\nd 9655953 1 50 1\np 0\n",
        Bound::AtLeast(13),
        [1, 0, 1, 0, 1],
    ),
];

#[test]
fn logs_with_named_cuts(rt: HostRuntime) -> Result<(), Fail> {
    for (tables, log, bound, counts) in NAMED_LOGS {
        let network = network_of(rt.alloc(), tables)?;
        let expected = proving(bound, counts);
        assert_eq!(rt; replayed(rt.alloc(), &network, log), expected);
        for size in SIZES {
            let expected = proving(bound, counts);
            assert_eq!(rt; in_pieces(rt.alloc(), &network, log, size), expected);
        }
    }
    Ok(())
}

// Texts that are no log of two levels: the line and the kind of the first fault.
const NAMED_FAULTS: [(&[u8], u64, LogKind); 37] = [
    (b"geoplan-log 2", 1, LogKind::Form),
    (b"geoplan-log 3\n", 1, LogKind::Form),
    (b"geoplan-log 2\n", 2, LogKind::Short),
    (b"geoplan-log 2\nk 0 1 0 1\n", 3, LogKind::Short),
    (b"geoplan-log 2\nk 0 0\n", 3, LogKind::Short),
    (b"geoplan-log 2\nk 0 1 0 1", 2, LogKind::Form),
    (b"geoplan-log 2\nk 0 2 0 1\n", 2, LogKind::Form),
    (b"geoplan-log 2\nk 0 1 0 -0\n", 2, LogKind::Form),
    (b"geoplan-log 2\nx 0 1 0 1\n", 2, LogKind::Form),
    (b"geoplan-log 2\nd 1 1 1 0 1 0 1\n", 2, LogKind::Form),
    (b"geoplan-log 2\nx 00\n", 2, LogKind::Form),
    (b"geoplan-log 2\nx 10000000000000000000\n", 2, LogKind::Form),
    (b"geoplan-log 2\ngeoplan-log 1\n", 2, LogKind::Form),
    (b"geoplan-log 2\nx 0\n", 2, LogKind::Range),
    (b"geoplan-log 2\nx 9999999999999999999\n", 2, LogKind::Range),
    (b"geoplan-log 2\nk 0 1 0 1\nx 1\n", 3, LogKind::Range),
    (b"geoplan-log 2\nk 3 0\n", 2, LogKind::Range),
    (b"geoplan-log 2\nk 0 1 1 1\n", 2, LogKind::Range),
    (b"geoplan-log 2\nk 0 1 0 0\n", 2, LogKind::Range),
    (b"geoplan-log 2\nk 0 1 0 32769\n", 2, LogKind::Range),
    (b"geoplan-log 2\nk 0 2 0 1 0 2\n", 2, LogKind::Range),
    (b"geoplan-log 2\nd 1 1 1 0\n", 2, LogKind::Range),
    (b"geoplan-log 2\nk 0 1 0 1\nd 1 1 1 1\n", 3, LogKind::Range),
    (b"geoplan-log 2\nk 0 1 0 1\nd 1 1 0 0\n", 3, LogKind::Range),
    (
        b"geoplan-log 2\nk 0 1 0 1\nd 1 1 17592186044417 0\n",
        3,
        LogKind::Range,
    ),
    (
        b"geoplan-log 2\nk 0 1 0 1\nd 17592186044417 1 1 0\n",
        3,
        LogKind::Range,
    ),
    (b"geoplan-log 2\nk 1 1 0 1\nd 0 1 1 0\n", 3, LogKind::Range),
    (b"geoplan-log 2\nk 1 1 0 1\nd 1 1 1 0\n", 3, LogKind::Owner),
    (b"geoplan-log 2\nk 1 1 0 1\nx 0\n", 3, LogKind::Owner),
    (
        b"geoplan-log 2\ns 0\nk 1 1 0 1\nx 0\nx 0\n",
        5,
        LogKind::Owner,
    ),
    (b"geoplan-log 2\nk 0 1 0 1\nx 0\n", 3, LogKind::CutHolds),
    (b"geoplan-log 2\nk 0 1 0 1\np 0\n", 3, LogKind::NotRefuted),
    (b"geoplan-log 2\ns 0\ns 0\n", 3, LogKind::NotOpen),
    (b"geoplan-log 2\nd 1 0\nk 0 1 0 1\n", 3, LogKind::Extra),
    (b"geoplan-log 2\nc\ngeoplan-log 1\n", 3, LogKind::Extra),
    (
        b"geoplan-log 2\ns 0\nc\nk 0 1 0 1\nc\nk 0 1 0 1\n",
        6,
        LogKind::Extra,
    ),
    (b"geoplan-log 2\ns 0\nc\nk 0 1 0 1\n", 5, LogKind::Short),
];

#[test]
fn named_logs_with_a_fault(rt: HostRuntime) -> Result<(), Fail> {
    let network = network_of(rt.alloc(), &TOO_REDUNDANT)?;
    for (log, line, kind) in NAMED_FAULTS {
        assert_eq!(rt; replayed(rt.alloc(), &network, log), fault(line, kind));
        for size in SIZES {
            let expected = fault(line, kind);
            assert_eq!(rt; in_pieces(rt.alloc(), &network, log, size), expected);
        }
    }
    Ok(())
}

// What comes of a log that names so many cuts and uses the last one of the first 65536.
fn naming(alloc: Global, names: u32) -> Result<Result<Replayed, ReplayAnswer>, Fail> {
    let network = network_of(alloc, &CLOSER_LEVEL)?;
    let mut log = b"geoplan-log 2\n".to_vec(alloc)?;
    for _name in 0..names {
        log.extend_from_slice(b"k 0 1 0 1\n")?;
    }
    log.extend_from_slice(b"x 65535\n")?;
    Ok(replayed(alloc, &network, log.as_slice()))
}

#[test]
fn a_log_names_at_most_65536_cuts(rt: HostRuntime) -> Result<(), Fail> {
    let all = naming(rt.alloc(), 65536)?;
    assert_eq!(rt; all, proving(Bound::NoPlan, [0, 0, 0, 1, 0]));
    let more = naming(rt.alloc(), 65537)?;
    assert_eq!(rt; more, fault(65538, LogKind::Range));
    Ok(())
}
