//! Searches over networks of levels, whose answers were reckoned by an independent program. The
//! log of each is replayed.
use branch_bound::{SearchFault, search};
use geo_model::{Answer, Counts, Network, cost};
use log_check::{Bound, ReplayAnswer, Replayed, replay};
use shelf_io::{MemShelf, Shelf, SureShelf};
use std::alloc::Global;
use std::process::Abort;
use std::test::Fail;
use test_networks::{
    CLOSER_LEVEL, CaseTables, HALF_REDUNDANT, LEVELLING_LINE, ONE_LEVEL, TOO_REDUNDANT,
    height_at_stations, missed, network_of,
};

// What a search answers: the price of the plan, where it has one, and the open limit with its step and
// interval, where it is undecided.
#[derive(Clone, Copy, Debug, PartialEq, Eq)]
enum Found {
    Best(u64),
    NoPlan,
    Undecided(u64, u32, u32, i128, i128),
}

// A search: what it answers, the counts of the lines of its log, and the shelf with the log.
#[derive(Drop)]
struct SearchEnd {
    found: Found,
    counts: Counts,
    shelf: SureShelf,
}

// A search over a sure shelf, of which a proof here need know nothing.
fn searched(alloc: Global, network: &Network) -> Result<SearchEnd, Fail> {
    let mut shelf = SureShelf::new(alloc);
    shelf.start("log")?;
    let done = search(alloc, network, &mut shelf, "log")?;
    let found = match &done.answer {
        Answer::Best(plan) => Found::Best(cost(network, plan)),
        Answer::NoPlan => Found::NoPlan,
        Answer::Undecided {
            plan,
            limit,
            step,
            lo,
            hi,
        } => Found::Undecided(cost(network, plan), *limit, *step, *lo, *hi),
    };
    Ok(SearchEnd {
        found,
        counts: done.counts,
        shelf,
    })
}

// A replay, of which a proof here need know nothing.
fn replayed(alloc: Global, network: &Network, log: &[u8]) -> Result<Replayed, ReplayAnswer> {
    replay(alloc, network, log)
}

// Searches a network, asserts what is found, and replays the log.
fn expect_search(
    rt: &impl Abort,
    alloc: Global,
    network: &Network,
    found: Found,
    bound: Bound,
) -> Result<(), Fail> {
    let done = searched(alloc, network)?;
    assert_eq!(rt; done.found, found);
    let log = done.shelf.file("log").ok_or("no log")?;
    let counts = done.counts;
    assert_eq!(rt;
        replayed(alloc, network, log),
        Ok(Replayed { bound, counts })
    );
    Ok(())
}

// Tables, what a search of their network finds, and the bound of its log.
const SEARCHES: [(CaseTables, Found, Bound); 5] = [
    (ONE_LEVEL, Found::Best(5), Bound::AtLeast(5)),
    (CLOSER_LEVEL, Found::NoPlan, Bound::NoPlan),
    (HALF_REDUNDANT, Found::Best(12), Bound::AtLeast(12)),
    (TOO_REDUNDANT, Found::NoPlan, Bound::NoPlan),
    (
        LEVELLING_LINE,
        Found::Undecided(20, 3, 4, -1, 1),
        Bound::AtLeast(20),
    ),
];

#[test]
fn levels_to_heights(rt: HostRuntime) -> Result<(), Fail> {
    for (tables, found, bound) in &SEARCHES {
        let network = network_of(rt.alloc(), tables)?;
        expect_search(&rt, rt.alloc(), &network, *found, *bound)?;
    }
    Ok(())
}

// No verdict settles this limit, but the displacement by 1 breaks it.
#[test]
fn a_limit_missed_by_less_than_the_grid_has_no_plan(rt: HostRuntime) -> Result<(), Fail> {
    let network = missed(rt.alloc())?;
    expect_search(&rt, rt.alloc(), &network, Found::NoPlan, Bound::NoPlan)
}

// Two levels, both of which the limit of 0.9 mm asks for.
const BOTH_LEVELS: CaseTables = CaseTables {
    points: "A,,,100.000,,fixed\nH,,,101.000,,0.9\n",
    candidates: "l1,level,A,H,,1.00,,5\nl2,level,A,H,,1.00,,7\n",
    redundancy: 0,
    unknowns: 1,
    choices: 2,
    limits: 1,
};

// Each of these lines is one append: the third one fails, halfway. Neither a plan nor a dual bound
// ends the first two nodes, so that they are splits.
#[test]
fn a_failed_append_leaves_whole_lines_before_it(rt: HostRuntime) -> Result<(), Fail> {
    let network = network_of(rt.alloc(), &BOTH_LEVELS)?;
    let mut shelf = MemShelf::new(rt.alloc(), vec![in rt.alloc(); 4]?);
    shelf.start("log")?;
    let refused = search(rt.alloc(), &network, &mut shelf, "log").err();
    assert_eq!(rt; refused, Some(SearchFault::WriteFault));
    let log = b"geoplan-log 2\ns 0\ns ".as_slice();
    assert_eq!(rt; shelf.file("log"), Some(log));
    Ok(())
}

// The log of format 1 that proves 12, in format 2: the cut is named right before its first use alone.
#[test]
fn a_cut_is_named_before_its_first_use_alone(rt: HostRuntime) -> Result<(), Fail> {
    let network = network_of(rt.alloc(), &BOTH_LEVELS)?;
    let done = searched(rt.alloc(), &network)?;
    let log = b"geoplan-log 2\ns 0\ns 1\nc\nk 0 1 0 1\nx 0\nx 0\n".as_slice();
    assert_eq!(rt; done.shelf.file("log"), Some(log));
    Ok(())
}

// What the stations of both ways to observe a height cost, and the price of the cheapest plan by hand:
// one way is a level for 9, the other two for 6 each, which stand at one station.
const AT_STATIONS: [(u64, u64, u64); 5] = [
    (0, 0, 9),
    (4, 0, 12),
    (4, 2, 13),
    (6, 2, 14),
    (0, 4, 9),
];

#[test]
fn stations_are_paid_once(rt: HostRuntime) -> Result<(), Fail> {
    for (first, others, price) in AT_STATIONS {
        let network = height_at_stations(rt.alloc(), first, others)?;
        let bound = Bound::AtLeast(u128::from(price));
        expect_search(&rt, rt.alloc(), &network, Found::Best(price), bound)?;
    }
    Ok(())
}
