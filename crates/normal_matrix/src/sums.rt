//! Sums of products in a triangle of rows.
ghost use Rattle.std.specs.Prelude.{◌≡◌, ℕ, ◌+◌, ◌<◌, ◌≤◌, ◌^◌, ℤ, pos, ◌+ℤ◌, ◌*ℤ◌, ◌≤ℤ◌, List, length, All, unsigned_abs};
ghost use Rattle.whole_algebra.specs.Sums.{int_sum_by};
ghost use Rattle.whole_algebra.specs.Matrices.{at};
ghost use Rattle.whole_algebra.specs.Grid.{entry};
ghost use Rattle.geo_model.specs.Row.{IsRow, total_size};
ghost use Rattle.normal_matrix.specs.Changes.{sign_of};
ghost use Rattle.normal_matrix.specs.Entries.{coefficient, row_entry};

use crate::change::Change;
use geo_model::Row;
use lent_parts::Tri;

/// Adds the weighted products of rows to a triangle, or takes them off.
pub fn add_rows(sums: &mut Tri, rows: &[Row], change: Change)
    requires size { (i j : ℕ) → i ≤ j → j < length sums.old → unsigned_abs (entry sums.old i j) ≤ 2 ^ 100 }
    requires few { length rows.now ≤ 512 }
    requires each_row { All IsRow rows.now }
    requires columns { All (λ row. All (λ entry. entry.0 < length sums.old) row.entries) rows.now }
    ensures size { length sums.new ≡ length sums.old }
    ensures sum { (i j : ℕ) → i ≤ j → j < length sums.old → entry sums.new i j ≡ entry sums.old i j +ℤ sign_of change *ℤ int_sum_by (λ row. row_entry row i j) rows.now }
{
    let sign = change.sign();
    for row in rows {
        add_row(sums, row.entries(), sign * row.weight());
    }
}

// Adds the products of one row, each times a weight.
fn add_row(sums: &mut Tri, entries: &[(u32, i64)], weight: i64)
    requires size { (i j : ℕ) → i ≤ j → j < length sums.old → unsigned_abs (entry sums.old i j) ≤ 2 ^ 101 }
    requires columns { All (λ entry. entry.0 < length sums.old) entries.now }
    requires total { total_size entries.now < 2 ^ 23 }
    requires weight { unsigned_abs weight ≤ 1000000 }
    ensures size { length sums.new ≡ length sums.old }
    ensures sum { (i j : ℕ) → i ≤ j → j < length sums.old → entry sums.new i j ≡ entry sums.old i j +ℤ weight *ℤ (coefficient entries.now i *ℤ coefficient entries.now j) }
{
    for &(column, size) in entries {
        let line = sums.row_mut(column);
        add_products(line, column, weight as i128 * size as i128, entries);
    }
}

// Adds the factor times each entry at its place, in the line of a row that begins at column `first`.
fn add_products(line: &mut [i128], first: u32, factor: i128, entries: &[(u32, i64)])
    requires size { (k : ℕ) → k < length line.old → unsigned_abs (at line.old k) ≤ 2 ^ 102 }
    requires columns { All (λ entry. entry.0 < first + length line.old) entries.now }
    requires total { total_size entries.now < 2 ^ 23 }
    requires factor { unsigned_abs factor ≤ 2 ^ 43 }
    ensures { (k : ℕ) → k < length line.old → at line.new k ≡ at line.old k +ℤ factor *ℤ coefficient entries.now (first + k) }
{
    for &(column, size) in entries {
        if column >= first {
            line[(column - first) as usize] += factor * size as i128;
        }
    }
}

/// The entry of row `i` and column `j`.
pub fn entry_of(sums: &Tri, i: u32, j: u32) -> i128
    requires row { i < length sums.now }
    requires column { j < length sums.now }
    ensures upper { i ≤ j → result ≡ entry sums.now i j }
    ensures lower { j ≤ i → result ≡ entry sums.now j i }
{
    if i <= j {
        sums.row(i)[(j - i) as usize]
    } else {
        sums.row(j)[(i - j) as usize]
    }
}
