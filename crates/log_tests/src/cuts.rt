//! Cuts of three levels of 1.00 mm to one new height, whose limit is 0.9 mm.
ghost use Rattle.std.specs.Prelude.{◌≡◌, length, IfOk};

use cut_pool::{
    Cut, CutPool, Share, cut_into, cut_of, meeting_plans_satisfy_cuts, shifts_are_least,
};
use geo_base::NoMemory;
use geo_model::{Displacement, Network};
use std::alloc::Global;
use std::process::Abort;
use std::test::Fail;
use test_networks::{THREE_LEVELS, network_of};

// The displacement of the height by so many millimetres.
fn height_moves(alloc: Global, by: u8) -> Result<Displacement, NoMemory>
    ensures { IfOk result (λ x. length x ≡ 1) }
{
    let mut x = Displacement::new(alloc, 1)?;
    x.set(0, i32::from(by));
    Ok(x)
}

// The cut of the height's limit and of such a displacement, of which a proof here need know nothing.
fn height_cut(alloc: Global, network: &Network, by: u8) -> Result<Cut, NoMemory>
    requires unknowns { length network.now.unknowns ≡ 1 }
    requires limits { length network.now.limits ≡ 1 }
{
    cut_of(alloc, network, 0, height_moves(alloc, by)?)
}

// The bound and the coefficients that are written for such a displacement.
fn written(alloc: Global, network: &Network, by: u8) -> Result<(u32, [u32; 3]), NoMemory>
    requires unknowns { length network.now.unknowns ≡ 1 }
    requires candidates { length network.now.candidates ≡ 3 }
    requires limits { length network.now.limits ≡ 1 }
{
    let x = height_moves(alloc, by)?;
    let mut coefficients = [0u32; 3];
    let bound = cut_into(network, 0, &x, &mut coefficients);
    Ok((bound, coefficients))
}

#[test]
fn a_cut_of_three_levels(rt: HostRuntime) -> Result<(), Fail> {
    let network = network_of(rt.alloc(), &THREE_LEVELS)?;
    let expected = [9655953u32, 9655953, 9655953];
    let cut = height_cut(rt.alloc(), &network, 1)?;
    assert_eq!(rt; (cut.limit, cut.bound), (0, 11920928));
    assert_eq!(rt; cut.x.entries(), [1i32].as_slice());
    assert_eq!(rt; cut.coefficients.as_slice(), expected.as_slice());
    assert_eq!(rt; written(rt.alloc(), &network, 1)?, (11920928, expected));
    Ok(())
}

// Adds a cut to a pool, and answers whether it did, of which a proof here need know nothing.
fn added(rt: &impl Abort, pool: &mut CutPool, cut: Cut) -> Result<bool, Fail> {
    assert!(rt; pool.len() < 100);
    Ok(pool.add(cut)?)
}

#[test]
fn a_pool_keeps_a_cut_once(rt: HostRuntime) -> Result<(), Fail> {
    let network = network_of(rt.alloc(), &THREE_LEVELS)?;
    let mut pool = CutPool::new(rt.alloc());
    assert_eq!(rt; pool.len(), 0);
    for (by, is_new) in [(1, true), (2, true), (1, false)] {
        let cut = height_cut(rt.alloc(), &network, by)?;
        assert_eq!(rt; added(&rt, &mut pool, cut)?, is_new);
    }
    assert_eq!(rt; pool.len(), 2);
    assert_eq!(rt; pool.get(1).x.entries(), [2i32].as_slice());
    Ok(())
}

#[test]
fn laws_and_shares(rt: HostRuntime) {
    meeting_plans_satisfy_cuts();
    shifts_are_least();
    let share = Share { y: 7, cut: 0 };
    assert_eq!(rt; (share.y, share.cut), (7, 0));
}
