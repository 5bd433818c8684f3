//! The rows of the two grid matrices.
ghost use Rattle.std.specs.Prelude.{◌≡◌, ℕ, ◌+◌, ◌-◌, ◌<◌, ◌≤◌, ◌^◌, ℤ, pos, ◌≤ℤ◌, length, take, if◌then◌else◌, unsigned_abs};
ghost use Rattle.whole_algebra.specs.Sums.{int_sum};
ghost use Rattle.whole_algebra.specs.Rounding.{floor_over, gap_over};
ghost use Rattle.whole_algebra.specs.Matrices.{at, entries};
ghost use Rattle.whole_algebra.specs.Grid.{row_at, above};
ghost use Rattle.whole_algebra.specs.Chains.{beside};
ghost use Rattle.geo_model.specs.Limit.{IsLoad};
ghost use Rattle.normal_matrix.specs.Normal.{IsNormalOf};
ghost use Rattle.limit_forms.specs.Grid.{grid_of, on_grid, grid_step, lower_grid, upper_grid, IsFormOnGrid};

use crate::form::form_entry;
use crate::grid::LimitGrid;
use geo_base::shift_floor;
use geo_model::{Network, Square};
use normal_matrix::Normal;

// What the rows of both grid matrices are made of: the normal matrix of a plan, and the grid, the
// factor and the squares of a limit.
#[derive(Clone, Copy)]
struct GridForm<'a> {
    network: &'a Network,
    normal: &'a Normal,
    grid: &'a LimitGrid,
    alpha: i64,
    squares: &'a [Square],
}

// The entry of the form on the grid in a row and a column from it on: rounded down, and whether it
// is whole.
fn grid_entry(form: &GridForm<'_>, row: u32, column: u32) -> (i128, bool)
    requires form { IsFormOnGrid form.now.network.now form.now.normal.now form.now.grid.now form.now.alpha form.now.squares.now }
    requires order { row ≤ column }
    requires inside { column < length form.now.network.now.unknowns }
    ensures floor { result.0 ≡ floor_over grid_step (at (row_at (on_grid form.now.network.now form.now.normal.now.plan form.now.alpha form.now.squares.now) row) (column - row)) }
    ensures whole { gap_over grid_step (at (row_at (on_grid form.now.network.now form.now.normal.now.plan form.now.alpha form.now.squares.now) row) (column - row)) ≡ (if result.1 then pos 0 else pos 1) }
    ensures size { unsigned_abs result.0 < 2 ^ 109 }
{
    // The network's bounds, for the proof.
    let _bounds = form.network.candidates();
    let first = form.grid.unknown(row);
    let second = form.grid.unknown(column);
    let shift = form.grid.exponent(first) + form.grid.exponent(second);
    let entry = form_entry(
        form.network,
        form.normal,
        form.alpha,
        form.squares,
        first,
        second,
    );
    shift_floor(entry, shift)
}

// 1 for an entry that is not whole, else 0.
fn gap_of(whole: bool) -> i128
    ensures value { result ≡ (if whole then pos 0 else pos 1) }
    ensures low { pos 0 ≤ℤ result }
    ensures high { result ≤ℤ pos 1 }
{
    if whole { 0 } else { 1 }
}

// How many entries of column `k` above the diagonal are not whole.
fn slack_above(form: &GridForm<'_>, k: u32) -> i128
    requires form { IsFormOnGrid form.now.network.now form.now.normal.now form.now.grid.now form.now.alpha form.now.squares.now }
    requires inside { k < length form.now.network.now.unknowns }
    ensures value { result ≡ above (entries (gap_over grid_step) (on_grid form.now.network.now form.now.normal.now.plan form.now.alpha form.now.squares.now)) k k }
    ensures low { pos 0 ≤ℤ result }
    ensures high { result ≤ℤ pos k }
{
    let mut slack = 0;
    for row in 0..k {
        let (_number, whole) = grid_entry(form, row, k);
        slack += gap_of(whole);
    }
    slack
}

// Writes the entries of row `k` right of the diagonal, the same in both matrices, and answers how
// many of them are not whole.
fn write_right(form: &GridForm<'_>, k: u32, lower: &mut [i128], upper: &mut [i128]) -> i128
    requires form { IsFormOnGrid form.now.network.now form.now.normal.now form.now.grid.now form.now.alpha form.now.squares.now }
    requires few { length form.now.network.now.unknowns ≤ 64 }
    requires inside { k < length form.now.network.now.unknowns }
    requires lower_room { length lower.old + k ≡ length form.now.network.now.unknowns }
    requires upper_room { length upper.old + k ≡ length form.now.network.now.unknowns }
    ensures value { result ≡ int_sum (take (length lower.old - 1) (beside (row_at (entries (gap_over grid_step) (on_grid form.now.network.now form.now.normal.now.plan form.now.alpha form.now.squares.now)) k))) }
    ensures low { pos 0 ≤ℤ result }
    ensures high { result ≤ℤ pos (length lower.old) }
    ensures lower { (m : ℕ) → 1 ≤ m → m < length lower.old → at lower.new m ≡ floor_over grid_step (at (row_at (on_grid form.now.network.now form.now.normal.now.plan form.now.alpha form.now.squares.now) k) m) }
    ensures upper { (m : ℕ) → 1 ≤ m → m < length lower.old → at upper.new m ≡ floor_over grid_step (at (row_at (on_grid form.now.network.now form.now.normal.now.plan form.now.alpha form.now.squares.now) k) m) }
{
    let mut slack = 0;
    for m in 1..lower.len() {
        let (number, whole) = grid_entry(form, k, k + m as u32);
        lower[m] = number;
        upper[m] = number;
        slack += gap_of(whole);
    }
    slack
}

/// Writes row `k` of the lower and of the upper grid matrix, in the order of the grid, from the
/// diagonal on.
pub fn grid_row(
    network: &Network,
    normal: &Normal,
    grid: &LimitGrid,
    alpha: i64,
    squares: &[Square],
    k: u32,
    lower: &mut [i128],
    upper: &mut [i128],
)
    requires normal { IsNormalOf network.now normal.now }
    requires limit { IsLoad (length network.now.unknowns) network.now.candidates alpha squares.now }
    requires grid { grid.now ≡ grid_of network.now alpha squares.now }
    requires inside { k < length network.now.unknowns }
    requires lower_room { length lower.old + k ≡ length network.now.unknowns }
    requires upper_room { length upper.old + k ≡ length network.now.unknowns }
    ensures lower { lower.new ≡ row_at (lower_grid network.now normal.now.plan alpha squares.now) k }
    ensures upper { upper.new ≡ row_at (upper_grid network.now normal.now.plan alpha squares.now) k }
{
    // The network's bounds, for the proof.
    let _bounds = network.candidates();
    let form = GridForm {
        network,
        normal,
        grid,
        alpha,
        squares,
    };
    let left = slack_above(&form, k);
    let right = write_right(&form, k, lower, upper);
    let (number, whole) = grid_entry(&form, k, k);
    let slack = left + right;
    lower[0] = number - slack;
    upper[0] = number + gap_of(whole) + slack;
}
