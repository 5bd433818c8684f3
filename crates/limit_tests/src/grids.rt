//! Normal matrices, and forms of limits on their grids.
ghost use Rattle.std.specs.Prelude.{◌≡◌, ◌+◌, ◌<◌, ◌∷◌, [], pos, length, IfOk};
ghost use Rattle.geo_model.specs.Limit.{IsLoad};
ghost use Rattle.normal_matrix.specs.Normal.{IsNormalOf};
ghost use Rattle.limit_forms.specs.Grid.{grid_of};

use geo_base::NoMemory;
use geo_model::{Network, Square};
use limit_forms::{LimitGrid, form_entry, grid_row};
use normal_matrix::Normal;
use std::alloc::Global;
use std::test::Fail;
use test_networks::{CaseTables, network_of};

// A level of weight 100 to a new height.
const ONE_LEVEL: CaseTables = CaseTables {
    points: "A,,,100.000,,fixed\nH,,,101.000,,100.0\n",
    candidates: "l1,level,A,H,,10.00,,5\n",
    redundancy: 0,
    unknowns: 1,
    choices: 1,
    limits: 1,
};

#[test]
fn a_level_comes_and_goes(rt: HostRuntime) -> Result<(), Fail> {
    let network = network_of(rt.alloc(), &ONE_LEVEL)?;
    let mut normal = Normal::new(rt.alloc(), &network)?;
    assert_eq!(rt; normal.entry(0, 0), 0);
    normal.add(&network, 0);
    assert!(rt; normal.has(0));
    assert_eq!(rt; normal.entry(0, 0), 10_000_000_000);
    normal.remove(&network, 0);
    assert!(rt; !normal.has(0));
    assert_eq!(rt; normal.entry(0, 0), 0);
    Ok(())
}

// Two new heights, with a level of weight 1000000 to the first, and one between them.
const TWO_LEVELS: CaseTables = CaseTables {
    points: "A,,,100.000,,fixed\nH1,,,101.000,,100.0\nH2,,,102.000,,100.0\n",
    candidates: "l1,level,A,H1,,0.10,,5\nl2,level,H1,H2,,0.10,,5\n",
    redundancy: 0,
    unknowns: 2,
    choices: 2,
    limits: 2,
};

// The square of weight 1 of an unknown's displacement.
fn square_of(alloc: Global, unknown: u32) -> Result<Vec<Square>, NoMemory>
    ensures { IfOk result (λ squares. squares.items ≡ record { beta = pos 1; entries = (unknown, pos 1) ∷ [] } ∷ []) }
{
    let entries = vec![in alloc; (unknown, 1)]?;
    Ok(vec![in alloc; Square { beta: 1, entries }]?)
}

// The square of weight 1 of the sum of both unknowns' displacements.
fn square_of_both(alloc: Global) -> Result<Vec<Square>, NoMemory>
    ensures { IfOk result (λ squares. squares.items ≡ record { beta = pos 1; entries = (0, pos 1) ∷ (1, pos 1) ∷ [] } ∷ []) }
{
    let entries = vec![in alloc; (0, 1), (1, 1)]?;
    Ok(vec![in alloc; Square { beta: 1, entries }]?)
}

// The normal matrix of both levels.
fn both_levels(alloc: Global, network: &Network) -> Result<Normal, NoMemory>
    requires { length network.now.candidates ≡ 2 }
    ensures { IfOk result (IsNormalOf network.now) }
{
    let mut normal = Normal::new(alloc, network)?;
    normal.add(network, 0);
    normal.add(network, 1);
    Ok(normal)
}

// Writes row `k` of both grid matrices of a limit of alpha 1000000. A proof here need know nothing of it.
fn put_row(
    network: &Network,
    normal: &Normal,
    grid: &LimitGrid,
    squares: &[Square],
    k: u32,
    lower: &mut [i128],
    upper: &mut [i128],
)
    requires normal { IsNormalOf network.now normal.now }
    requires limit { IsLoad (length network.now.unknowns) network.now.candidates (pos 1000000) squares.now }
    requires grid { grid.now ≡ grid_of network.now (pos 1000000) squares.now }
    requires inside { k < length network.now.unknowns }
    requires lower_room { length lower.old + k ≡ length network.now.unknowns }
    requires upper_room { length upper.old + k ≡ length network.now.unknowns }
{
    grid_row(network, normal, grid, 1000000, squares, k, lower, upper);
}

#[test]
fn a_grid_of_two_unknowns(rt: HostRuntime) -> Result<(), Fail> {
    let network = network_of(rt.alloc(), &TWO_LEVELS)?;
    let normal = both_levels(rt.alloc(), &network)?;
    let squares = square_of(rt.alloc(), 1)?;
    let limit = squares.as_slice();
    let grid = LimitGrid::new(rt.alloc(), &network, 1000000, limit)?;
    assert_eq!(rt; grid.unknown(0), 1);
    assert_eq!(rt; grid.place(0), 1);
    assert_eq!(rt; grid.exponent(0), 4);
    assert_eq!(rt;
        form_entry(&network, &normal, 1000000, limit, 1, 1),
        99999999999999999999
    );
    let mut lower = [0i128; 2];
    let mut upper = [0i128; 2];
    put_row(&network, &normal, &grid, limit, 0, &mut lower, &mut upper);
    assert_eq!(rt; lower, [390624999999999999, -390625000000000000]);
    assert_eq!(rt; upper, [390625000000000000, -390625000000000000]);
    Ok(())
}

// The entry beside the diagonal is not whole, so it is rounded down in both matrices, and counts in
// the slack of both rows.
#[test]
fn a_grid_with_slack(rt: HostRuntime) -> Result<(), Fail> {
    let network = network_of(rt.alloc(), &TWO_LEVELS)?;
    let normal = both_levels(rt.alloc(), &network)?;
    let squares = square_of_both(rt.alloc())?;
    let limit = squares.as_slice();
    let grid = LimitGrid::new(rt.alloc(), &network, 1000000, limit)?;
    let mut lower = [0i128; 2];
    let mut upper = [0i128; 2];
    put_row(&network, &normal, &grid, limit, 0, &mut lower, &mut upper);
    assert_eq!(rt; lower, [781249999999999998, -390625000000000001]);
    assert_eq!(rt; upper, [781250000000000001, -390625000000000001]);
    let mut last_lower = [0i128; 1];
    let mut last_upper = [0i128; 1];
    put_row(
        &network,
        &normal,
        &grid,
        limit,
        1,
        &mut last_lower,
        &mut last_upper,
    );
    assert_eq!(rt; last_lower, [390624999999999998]);
    assert_eq!(rt; last_upper, [390625000000000001]);
    Ok(())
}
