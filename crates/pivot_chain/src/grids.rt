//! The two grid matrices of a limit under a plan, whose rows are written when their places are
//! reached.
ghost use Rattle.std.specs.Prelude.{◌≡◌, ◌≢◌, ℕ, ◌<◌, length};
ghost use Rattle.whole_algebra.specs.Grid.{row_at};
ghost use Rattle.lent_parts.specs.Triangle.{tri_row};
ghost use Rattle.pivot_chain.specs.Judging.{lower_of, upper_of, IsMade};

use geo_model::{Network, Square};
use lent_parts::Tri;
use limit_forms::{LimitGrid, grid_row};
use normal_matrix::Normal;

/// What the rows of both grid matrices are made of: the normal matrix of a plan, and the grid, the
/// factor and the squares of a limit.
#[derive(Clone, Copy)]
pub struct Grids<'a> {
    pub network: &'a Network,
    pub normal: &'a Normal,
    pub grid: &'a LimitGrid,
    pub alpha: i64,
    pub squares: &'a [Square],
}

/// Writes row `k` of both matrices. No other row changes.
pub fn write_rows(grids: &Grids<'_>, k: u32, lower: &mut Tri, upper: &mut Tri)
    requires made { IsMade grids.now }
    requires within { k < length grids.now.network.now.unknowns }
    requires lower_room { length lower.old ≡ length grids.now.network.now.unknowns }
    requires upper_room { length upper.old ≡ length grids.now.network.now.unknowns }
    ensures lower { tri_row lower.new k ≡ row_at (lower_of grids.now) k }
    ensures upper { tri_row upper.new k ≡ row_at (upper_of grids.now) k }
    ensures lower_others { (j : ℕ) → j ≢ k → tri_row lower.new j ≡ tri_row lower.old j }
    ensures upper_others { (j : ℕ) → j ≢ k → tri_row upper.new j ≡ tri_row upper.old j }
    ensures lower_size { length lower.new ≡ length lower.old }
    ensures upper_size { length upper.new ≡ length upper.old }
{
    grid_row(
        grids.network,
        grids.normal,
        grids.grid,
        grids.alpha,
        grids.squares,
        k,
        lower.row_mut(k),
        upper.row_mut(k),
    );
}

// Writes row `k` of the upper matrix, unless it stands there: the first `written` rows do. No other
// row of it changes.
pub(crate) fn write_upper(grids: &Grids<'_>, k: u32, written: u32, spare: &mut Tri, upper: &mut Tri)
    requires made { IsMade grids.now }
    requires within { k < length grids.now.network.now.unknowns }
    requires spare_room { length spare.old ≡ length grids.now.network.now.unknowns }
    requires upper_room { length upper.old ≡ length grids.now.network.now.unknowns }
    requires known { k < written → tri_row upper.old k ≡ row_at (upper_of grids.now) k }
    ensures upper { tri_row upper.new k ≡ row_at (upper_of grids.now) k }
    ensures others { (j : ℕ) → j ≢ k → tri_row upper.new j ≡ tri_row upper.old j }
    ensures spare_size { length spare.new ≡ length spare.old }
    ensures upper_size { length upper.new ≡ length upper.old }
{
    if k < written {
        return;
    }
    write_rows(grids, k, spare, upper);
}
