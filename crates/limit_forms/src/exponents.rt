//! The exponents of the unknowns.
ghost use Rattle.std.specs.Prelude.{◌≡◌, ℕ, ◌*◌, ◌<◌, ◌≤◌, ◌^◌, ℤ, pos, ◌≤ℤ◌, length, map, unsigned_abs, All, IfOk};
ghost use Rattle.std.specs.List.{range_with_len};
ghost use Rattle.whole_algebra.specs.Matrices.{at};
ghost use Rattle.geo_model.specs.Row.{IsRow};
ghost use Rattle.normal_matrix.specs.Entries.{candidate_entry, row_entry};
ghost use Rattle.limit_forms.specs.Form.{full_entry, IsFullDiagonal};
ghost use Rattle.limit_forms.specs.Grid.{exponent_at};

use crate::form::coefficient_at;
use geo_base::{NoMemory, grid_exponent};
use geo_model::{Candidate, Network, Row};
use std::alloc::Global;

// What a row adds to the diagonal entry of an unknown.
fn row_diagonal(row: &Row, unknown: u32) -> i128
    requires { IsRow row.now }
    ensures value { result ≡ row_entry row.now unknown unknown }
    ensures size { unsigned_abs result ≤ 2 ^ 66 }
{
    let size = coefficient_at(row.entries(), unknown) as i128;
    row.weight() as i128 * (size * size)
}

// What a candidate adds to the diagonal entry of an unknown.
fn candidate_diagonal(candidate: &Candidate, unknown: u32) -> i128
    requires few { length candidate.now.rows ≤ 512 }
    requires rows { All IsRow candidate.now.rows }
    ensures value { result ≡ candidate_entry candidate.now unknown unknown }
    ensures size { unsigned_abs result ≤ 512 * 2 ^ 66 }
{
    let rows = candidate.rows.as_slice();
    let mut sum = 0;
    for row in rows {
        sum += row_diagonal(row, unknown);
    }
    sum
}

// The diagonal entry of an unknown in the normal matrix of all candidates.
fn full_diagonal(network: &Network, unknown: u32) -> i128
    ensures value { result ≡ full_entry network.now.candidates unknown unknown }
    ensures size { unsigned_abs result ≤ 256 * (512 * 2 ^ 66) }
{
    let candidates = network.candidates();
    let mut sum = 0;
    for candidate in candidates {
        sum += candidate_diagonal(candidate, unknown);
    }
    sum
}

// The exponent of an unknown, from its diagonal entry in the normal matrix of all candidates.
fn exponent_from(network: &Network, unknown: u32, diagonal: i128, alpha: i64) -> i32
    requires low { pos 1 ≤ℤ alpha }
    requires high { alpha ≤ℤ pos 1000000 }
    requires diagonal { diagonal ≡ full_entry network.now.candidates unknown unknown }
    ensures { result ≡ exponent_at network.now.candidates alpha unknown }
{
    // The network's bounds, for the proof.
    let _bounds = network.candidates();
    let scaled = alpha as i128 * diagonal;
    grid_exponent(scaled)
}

/// Writes the exponent of each unknown.
pub fn take_exponents(exponents: &mut [i32], network: &Network, alpha: i64)
    requires low { pos 1 ≤ℤ alpha }
    requires high { alpha ≤ℤ pos 1000000 }
    requires size { length exponents.old ≤ 64 }
    ensures { exponents.new ≡ map (exponent_at network.now.candidates alpha) (range_with_len 0 (length exponents.old)) }
{
    for unknown in 0..exponents.len() {
        let diagonal = full_diagonal(network, unknown as u32);
        exponents[unknown] = exponent_from(network, unknown as u32, diagonal, alpha);
    }
}

/// Writes the exponent of each unknown, where the diagonal of the normal matrix of all candidates is
/// known.
pub fn exponents_of(exponents: &mut [i32], network: &Network, diagonal: &[i128], alpha: i64)
    requires low { pos 1 ≤ℤ alpha }
    requires high { alpha ≤ℤ pos 1000000 }
    requires size { length exponents.old ≤ 64 }
    requires known { IsFullDiagonal network.now diagonal.now }
    requires places { length exponents.old ≡ length network.now.unknowns }
    ensures { exponents.new ≡ map (exponent_at network.now.candidates alpha) (range_with_len 0 (length exponents.old)) }
{
    for unknown in 0..exponents.len() {
        let entry = diagonal[unknown];
        exponents[unknown] = exponent_from(network, unknown as u32, entry, alpha);
    }
}

/// The diagonal of the normal matrix of all candidates, an entry for each unknown.
pub fn full_diagonals(alloc: Global, network: &Network) -> Result<Vec<i128>, NoMemory>
    ensures { IfOk result (λ diagonal. IsFullDiagonal network.now diagonal.items) }
{
    let n = network.unknowns().len();
    let mut diagonal = vec![in alloc; 0i128; n]?;
    write_diagonal(diagonal.as_mut_slice(), network);
    Ok(diagonal)
}

// Writes the diagonal entry of each unknown.
fn write_diagonal(diagonal: &mut [i128], network: &Network)
    requires { length diagonal.old ≤ 64 }
    ensures { (i : ℕ) → i < length diagonal.old → at diagonal.new i ≡ full_entry network.now.candidates i i }
{
    for unknown in 0..diagonal.len() {
        diagonal[unknown] = full_diagonal(network, unknown as u32);
    }
}
