//! Plans, rows, limits and displacements.
use geo_model::{Counts, Displacement, Limit, LimitKind, Node, Plan, Row, cost};
use std::test::Fail;
use test_networks::{CaseTables, network_of};

// Two levels between fixed heights.
const FIXED_LEVELS: CaseTables = CaseTables {
    points: "A,,,1.000,,fixed\nB,,,2.000,,fixed\n",
    candidates: "l1,level,A,B,,1.00,,5\nl2,level,A,B,,1.00,,7\n",
    redundancy: 0,
    unknowns: 0,
    choices: 2,
    limits: 0,
};

#[test]
fn plans_cost_what_they_choose(rt: HostRuntime) -> Result<(), Fail> {
    let network = network_of(rt.alloc(), &FIXED_LEVELS)?;
    let mut plan = Plan::empty(rt.alloc(), 2)?;
    plan.set(1, true);
    assert_eq!(rt; cost(&network, &plan), 7);
    let full = Plan::full(rt.alloc(), 2)?;
    assert_eq!(rt; cost(&network, &full), 12);
    Ok(())
}

#[test]
fn a_copy_of_a_plan_is_its_own(rt: HostRuntime) -> Result<(), Fail> {
    let mut plan = Plan::empty(rt.alloc(), 2)?;
    assert!(rt; !plan.has(0));
    assert!(rt; !plan.has(1));
    plan.set(1, true);
    let mut copy = plan.copy(rt.alloc())?;
    copy.set(0, true);
    assert!(rt; !plan.has(0));
    assert!(rt; plan.has(1));
    assert!(rt; copy.has(0));
    assert!(rt; copy.has(1));
    Ok(())
}

#[test]
fn a_row_keeps_its_parts(rt: HostRuntime) -> Result<(), Fail> {
    let mut entries = Vec::new(rt.alloc());
    entries.push((0u32, 10000i64))?;
    let row = Row::new(entries, 100);
    assert_eq!(rt; row.entries(), [(0u32, 10000i64)].as_slice());
    assert_eq!(rt; row.weight(), 100);
    Ok(())
}

#[test]
fn a_limit_is_in_force_where_its_owner_is_chosen(rt: HostRuntime) -> Result<(), Fail> {
    let mut node = Node::whole(rt.alloc(), 2)?;
    let owned = Limit {
        kind: LimitKind::Redundancy(1, 0),
        owner: Some(1),
        alpha: 500,
        squares: Vec::new(rt.alloc()),
    };
    assert!(rt; !owned.is_in_force(&node.inside));
    assert!(rt; owned.is_in_force(&node.upper));
    node.upper.set(1, false);
    assert!(rt; !owned.is_in_force(&node.upper));
    let free = Limit {
        kind: LimitKind::Height(0),
        owner: None,
        alpha: 100,
        squares: Vec::new(rt.alloc()),
    };
    assert!(rt; free.is_in_force(&node.inside));
    Ok(())
}

#[test]
fn no_lines_are_counted_as_none(rt: HostRuntime) {
    let counts = Counts::none();
    assert_eq!(rt; (counts.splits, counts.costs, counts.pivots), (0, 0, 0));
    assert_eq!(rt; (counts.cuts, counts.duals), (0, 0));
}

#[test]
fn a_displacement_moves_single_unknowns(rt: HostRuntime) -> Result<(), Fail> {
    let mut x = Displacement::new(rt.alloc(), 3)?;
    assert_eq!(rt; x.entries(), [0i32, 0, 0].as_slice());
    x.set(1, 32768);
    x.set(2, -32768);
    x.set(1, 7);
    assert_eq!(rt; (x.get(0), x.get(1), x.get(2)), (0, 7, -32768));
    assert_eq!(rt; x.entries(), [0i32, 7, -32768].as_slice());
    Ok(())
}
