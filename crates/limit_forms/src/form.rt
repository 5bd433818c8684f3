ghost use Rattle.std.specs.Prelude.{◌≡◌, ◌+◌, ◌*◌, ◌<◌, ◌≤◌, ◌^◌, ℤ, pos, ◌≤ℤ◌, [], ◌∷◌, length, All, sum_by, unsigned_abs};
ghost use Rattle.geo_model.specs.Row.{total_size};
ghost use Rattle.geo_model.specs.Limit.{IsLoad};
ghost use Rattle.normal_matrix.specs.Entries.{coefficient};
ghost use Rattle.normal_matrix.specs.Normal.{IsNormalOf};
ghost use Rattle.limit_forms.specs.Form.{load_entry, form_of};

use geo_model::{Network, Square};
use normal_matrix::Normal;

/// The coefficient of a linear form at a column.
pub fn coefficient_at(entries: &[(u32, i64)], column: u32) -> i64
    requires { total_size entries.now < 2 ^ 45 }
    ensures value { result ≡ coefficient entries.now column }
    ensures size { unsigned_abs result ≤ total_size entries.now }
{
    let mut sum = 0;
    for &(place, size) in entries {
        if place == column {
            sum += size;
        }
    }
    sum
}

// The entry of row `i` and column `j` of one square.
fn square_entry(square: &Square, i: u32, j: u32) -> i128
    requires low { pos 1 ≤ℤ square.now.beta }
    requires total { unsigned_abs square.now.beta * total_size square.now.entries ^ 2 < 2 ^ 90 }
    ensures value { result ≡ load_entry (square.now ∷ []) i j }
    ensures size { unsigned_abs result ≤ unsigned_abs square.now.beta * total_size square.now.entries ^ 2 }
{
    let entries = square.entries.as_slice();
    let first = coefficient_at(entries, i) as i128;
    let second = coefficient_at(entries, j) as i128;
    square.beta * (first * second)
}

// The entry of row `i` and column `j` of the load.
fn load_at(squares: &[Square], i: u32, j: u32) -> i128
    requires low { All (λ square. pos 1 ≤ℤ square.beta) squares.now }
    requires total { sum_by (λ square. unsigned_abs square.beta * total_size square.entries ^ 2) squares.now < 2 ^ 90 }
    ensures value { result ≡ load_entry squares.now i j }
    ensures size { unsigned_abs result < 2 ^ 90 }
{
    let mut sum = 0;
    for square in squares {
        sum += square_entry(square, i, j);
    }
    sum
}

/// The entry of row `i` and column `j` of the form of a limit with this factor and these squares,
/// under the plan of the normal matrix.
pub fn form_entry(
    network: &Network,
    normal: &Normal,
    alpha: i64,
    squares: &[Square],
    i: u32,
    j: u32,
) -> i128
    requires normal { IsNormalOf network.now normal.now }
    requires limit { IsLoad (length network.now.unknowns) network.now.candidates alpha squares.now }
    requires row { i < length network.now.unknowns }
    requires column { j < length network.now.unknowns }
    ensures { result ≡ form_of network.now.candidates normal.now.plan alpha squares.now i j }
{
    // The network's bounds, for the proof.
    let _bounds = network.candidates();
    alpha as i128 * normal.entry(i, j) - load_at(squares, i, j)
}
