//! What linear forms, energies and loads are at a displacement, and which limits it breaks. All of
//! it is exact and takes no memory.
ghost use Rattle.std.specs.Prelude.{◌≡◌, ◌↔◌, ◌*◌, ◌<◌, ◌≤◌, ◌^◌, pos, ◌*ℤ◌, ◌≤ℤ◌, Some, length, slice_get, unsigned_abs, All, IsTrue};
ghost use Rattle.whole_algebra.specs.Matrices.{at};
ghost use Rattle.geo_model.specs.Row.{IsRow, form_at, form_squared, row_energy, total_size};
ghost use Rattle.geo_model.specs.Candidate.{IsCandidate, candidate_energy};
ghost use Rattle.geo_model.specs.Energy.{energy};
ghost use Rattle.geo_model.specs.Limit.{LimitOf, load};
ghost use Rattle.geo_model.specs.Meeting.{Breaks};

use crate::candidate::Candidate;
use crate::displacement::Displacement;
use crate::limit::Square;
use crate::network::Network;
use crate::plan::Plan;
use crate::row::Row;

// The value of a linear form at a displacement.
fn form_at(entries: &[(u32, i64)], x: &Displacement) -> i128
    requires columns { All (λ entry. entry.0 < length x.now) entries.now }
    requires total { total_size entries.now < 2 ^ 45 }
    ensures value { result ≡ form_at entries.now (at x.now) }
    ensures size { unsigned_abs result ≤ total_size entries.now * 2 ^ 15 }
{
    let moves = x.entries();
    let mut sum = 0;
    for &(column, coefficient) in entries {
        sum += coefficient as i128 * moves[column as usize] as i128;
    }
    sum
}

// What a row adds to the energy of a displacement.
fn row_energy(row: &Row, x: &Displacement) -> i128
    requires bounds { IsRow row.now }
    requires columns { All (λ entry. entry.0 < length x.now) row.now.entries }
    ensures value { result ≡ row_energy row.now (at x.now) }
    ensures size { unsigned_abs result ≤ 1000000 * 2 ^ 76 }
{
    // The displacement's bounds, for the proof.
    let _bounds = x.entries();
    let form = form_at(row.entries(), x);
    row.weight() as i128 * (form * form)
}

/// What a candidate adds to the energy of a displacement. The candidate keeps the bounds of one of
/// a network with as many unknowns as the displacement has entries, and has at most 512 rows.
pub fn candidate_energy(candidate: &Candidate, x: &Displacement) -> i128
    requires bounds { IsCandidate (length x.now) candidate.now }
    requires few { length candidate.now.rows ≤ 512 }
    ensures value { result ≡ candidate_energy candidate.now (at x.now) }
    ensures low { pos 0 ≤ℤ result }
    ensures size { unsigned_abs result < 2 ^ 105 }
{
    let rows = candidate.rows.as_slice();
    let mut sum = 0;
    for row in rows {
        sum += row_energy(row, x);
    }
    sum
}

/// The energy of a displacement under a plan: the sum of the squared weighted forms of the rows of
/// the chosen candidates. The plan has an entry for each candidate of the network, and the
/// displacement one for each unknown.
pub fn energy(network: &Network, plan: &Plan, x: &Displacement) -> i128
    requires plan { length plan.now ≡ length network.now.candidates }
    requires displacement { length x.now ≡ length network.now.unknowns }
    ensures value { result ≡ energy network.now.candidates plan.now (at x.now) }
    ensures size { unsigned_abs result < 2 ^ 105 }
{
    let candidates = network.candidates();
    // The displacement's bounds, for the proof.
    let _bounds = x.entries();
    let mut sum = 0;
    for (i, candidate) in candidates.iter().enumerate() {
        if plan.has(i as u32) {
            sum += candidate_energy(candidate, x);
        }
    }
    sum
}

// What a weighted square adds to the load of a displacement.
fn square_load(square: &Square, x: &Displacement) -> i128
    requires low { pos 1 ≤ℤ square.now.beta }
    requires total { unsigned_abs square.now.beta * total_size square.now.entries ^ 2 < 2 ^ 90 }
    requires columns { All (λ entry. entry.0 < length x.now) square.now.entries }
    ensures value { result ≡ square.now.beta *ℤ form_squared square.now.entries (at x.now) }
    ensures size { unsigned_abs result ≤ (unsigned_abs square.now.beta * total_size square.now.entries ^ 2) * 2 ^ 30 }
{
    // The displacement's bounds, for the proof.
    let _bounds = x.entries();
    let form = form_at(square.entries.as_slice(), x);
    square.beta * (form * form)
}

/// The load of a limit, by its number from 0, at a displacement: the sum of its weighted squares.
/// The displacement has an entry for each unknown of the network.
pub fn load(network: &Network, limit: u32, x: &Displacement) -> i128
    requires limit { limit < length network.now.limits }
    requires displacement { length x.now ≡ length network.now.unknowns }
    ensures value { (l : LimitOf) → slice_get network.now.limits limit ≡ Some l → result ≡ load l.squares (at x.now) }
    ensures low { pos 0 ≤ℤ result }
    ensures size { unsigned_abs result < 2 ^ 120 }
{
    let limits = network.limits();
    // The displacement's bounds, for the proof.
    let _bounds = x.entries();
    let form = &limits[limit as usize];
    let squares = form.squares.as_slice();
    let mut sum = 0;
    for square in squares {
        sum += square_load(square, x);
    }
    sum
}

/// Whether a displacement breaks a limit, by its number from 0, under a plan: the limit's factor
/// times the energy is less than the load. The plan has an entry for each candidate of the network,
/// and the displacement one for each unknown.
pub fn breaks(network: &Network, plan: &Plan, limit: u32, x: &Displacement) -> bool
    requires plan { length plan.now ≡ length network.now.candidates }
    requires limit { limit < length network.now.limits }
    requires displacement { length x.now ≡ length network.now.unknowns }
    ensures { (l : LimitOf) → slice_get network.now.limits limit ≡ Some l → IsTrue result ↔ Breaks network.now plan.now l (at x.now) }
{
    let limits = network.limits();
    // The displacement's bounds, for the proof.
    let _bounds = x.entries();
    let form = &limits[limit as usize];
    form.alpha as i128 * energy(network, plan, x) < load(network, limit, x)
}
