//! Logs with dual bounds, of small networks of one new height with levels of 1.00 mm to it. The first
//! one, and that the dual bound of its last node is 13, were reckoned by hand.
use geo_model::{Counts, Network};
use log_check::{Bound, LogFault, LogKind, ReplayAnswer, Replayed, replay};
use std::alloc::Global;
use std::test::Fail;
use test_networks::{ONE_DEAR_LEVEL, TOO_REDUNDANT, TWO_LEVELS, network_of};

// A replay, of which a proof here need know nothing.
fn replayed(alloc: Global, network: &Network, log: &[u8]) -> Result<Replayed, ReplayAnswer> {
    replay(alloc, network, log)
}

fn accepted(
    bound: u128,
    [splits, costs, pivots, duals]: [u64; 4],
) -> Result<Replayed, ReplayAnswer> {
    Ok(Replayed {
        bound: Bound::AtLeast(bound),
        counts: Counts {
            splits,
            costs,
            pivots,
            cuts: 0,
            duals,
        },
    })
}

#[test]
fn a_log_of_three_levels(rt: HostRuntime) -> Result<(), Fail> {
    let network = network_of(rt.alloc(), &ONE_DEAR_LEVEL)?;
    let log = b"geoplan-log 1\ns 0\ns 1\nc\ns 2\nc\np 0\nd 9655953 1 50 0 1 0 1\n".as_slice();
    assert_eq!(rt;
        replayed(rt.alloc(), &network, log),
        accepted(2, [3, 2, 1, 1])
    );
    Ok(())
}

// Logs of two levels, the bound of each, and how many splits, cost, pivot and dual leaves it has.
const LOGS: [(&[u8], u128, [u64; 4]); 3] = [
    (
        b"geoplan-log 1\ns 0\nd 9655953 1 50 0 1 0 1\np 0\n",
        13,
        [1, 0, 1, 1],
    ),
    (b"geoplan-log 1\ns 0\nd 7 0\np 0\n", 1, [1, 0, 1, 1]),
    (b"geoplan-log 1\nd 1 0\n", 0, [0, 0, 0, 1]),
];

#[test]
fn dual_bounds_of_two_levels(rt: HostRuntime) -> Result<(), Fail> {
    let network = network_of(rt.alloc(), &TWO_LEVELS)?;
    for (log, bound, counts) in LOGS {
        assert_eq!(rt;
            replayed(rt.alloc(), &network, log),
            accepted(bound, counts)
        );
    }
    Ok(())
}

// Lines that are no dual bound at the root, and what is wrong with each: the ranges of all shares
// come before the owner of any.
const WRONG: [(&[u8], LogKind); 15] = [
    (b"geoplan-log 1\nd 0 1 50 0 1 0 1\n", LogKind::Range),
    (
        b"geoplan-log 1\nd 17592186044417 1 50 0 1 0 1\n",
        LogKind::Range,
    ),
    (b"geoplan-log 1\nd 1 1 0 0 1 0 1\n", LogKind::Range),
    (
        b"geoplan-log 1\nd 1 1 17592186044417 0 1 0 1\n",
        LogKind::Range,
    ),
    (b"geoplan-log 1\nd 1 1 1 3 1 0 1\n", LogKind::Range),
    (b"geoplan-log 1\nd 1 1 1 0 1 1 1\n", LogKind::Range),
    (b"geoplan-log 1\nd 1 1 1 0 1 0 0\n", LogKind::Range),
    (b"geoplan-log 1\nd 1 1 1 0 1 0 32769\n", LogKind::Range),
    (b"geoplan-log 1\nd 1 1 1 0 2 0 1 0 1\n", LogKind::Range),
    (b"geoplan-log 1\nd 1 1 1 1 1 0 1\n", LogKind::Owner),
    (
        b"geoplan-log 1\nd 1 2 1 1 1 0 1 1 0 1 0 0\n",
        LogKind::Range,
    ),
    (b"geoplan-log 1\nd 1 1\n", LogKind::Form),
    (b"geoplan-log 1\nd 1 2 1 0 1 0 1\n", LogKind::Form),
    (b"geoplan-log 1\nd 1 1 1 0 1 0 1 \n", LogKind::Form),
    (b"geoplan-log 1\nd\n", LogKind::Form),
];

#[test]
fn dual_bounds_with_a_fault(rt: HostRuntime) -> Result<(), Fail> {
    let network = network_of(rt.alloc(), &TOO_REDUNDANT)?;
    for (log, kind) in WRONG {
        let expected = Err(ReplayAnswer::Fault(LogFault { line: 2, kind }));
        assert_eq!(rt; replayed(rt.alloc(), &network, log), expected);
    }
    Ok(())
}
