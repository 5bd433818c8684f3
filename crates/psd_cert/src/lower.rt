ghost use Rattle.std.specs.Prelude.{◌≡◌, ℕ, ◌+◌, ◌-◌, ◌<◌, ◌≤◌, ◌^◌, ℤ, pos, ◌≤ℤ◌, List, length, IfOk, MatchOption};
ghost use Rattle.whole_algebra.specs.Matrices.{at, diagonal, lower_over, IsTriangle};
ghost use Rattle.whole_algebra.specs.Chains.{matrix_after};
ghost use Rattle.whole_algebra.specs.Grid.{row_at};
ghost use Rattle.lent_parts.specs.Triangle.{tri_row};
ghost use Rattle.chain_step.specs.Step.{IsPivotRow};
ghost use Rattle.psd_cert.specs.Sizes.{RowFits, Fits};
ghost use Rattle.psd_cert.specs.Lower.{StopsHere, Leaves};

use chain_step::{Side, left_gaps, stop_of, take_step};
use geo_base::NoMemory;
use lent_parts::Tri;
use std::alloc::Global;

// The matrix that the first step of the lower chain leaves: None where that step stops.
pub(crate) fn lower_step(alloc: Global, current: &Tri) -> Result<Option<Tri>, NoMemory>
    requires some { 0 < length current.now }
    requires few { length current.now ≤ 64 }
    requires fits { Fits current.now }
    ensures { IfOk result (λ answer. MatchOption answer (StopsHere current.now)
        (λ left. Leaves current.now left × ((i : ℕ) → at (diagonal left) i ≤ℤ pos (2 ^ 61)))) }
{
    match stop_of(current.row(0)) {
        Some(_value) => Ok(None),
        None => Ok(Some(left_below(alloc, current)?)),
    }
}

// What the first step of the lower chain leaves.
fn left_below(alloc: Global, current: &Tri) -> Result<Tri, NoMemory>
    requires some { 0 < length current.now }
    requires few { length current.now ≤ 64 }
    requires fits { Fits current.now }
    requires pivot { IsPivotRow (tri_row current.now 0) }
    ensures { IfOk result (λ left. left ≡ matrix_after lower_over 1 current.now) }
{
    let size = current.size() - 1;
    let mut left = Tri::new(alloc, size)?;
    let mut counts = Tri::new(alloc, size)?;
    for i in 0..size {
        write_left(
            left.row_mut(i),
            counts.row_mut(i),
            current.row(i + 1),
            current.row(0),
        );
    }
    Ok(left)
}

// Writes what the lower step of a pivot leaves of a row below it. `counts` is room for the counts of
// its quotients that aren't whole.
fn write_left(target: &mut [i128], counts: &mut [i128], row: &[i128], pivot: &[i128])
    requires pivot { IsPivotRow pivot.now }
    requires some { 0 < length row.now }
    requires shorter { length row.now < length pivot.now }
    requires fits { RowFits row.now }
    requires room { length target.old ≡ length row.now }
    requires counted { length counts.old ≡ length row.now }
    ensures { (matrix : List (List ℤ)) → IsTriangle (length pivot.now) matrix → row_at matrix 0 ≡ pivot.now
        → row_at matrix (length pivot.now - length row.now) ≡ row.now
        → target.new ≡ row_at (matrix_after lower_over 1 matrix) (length pivot.now - length row.now - 1) }
{
    target.copy_from_slice(row);
    counts.fill(0);
    counts[0] = left_gaps(pivot, pivot.len() - row.len());
    take_step(Side::Lower, target, counts, pivot);
}
