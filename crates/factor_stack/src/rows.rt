//! Rows of a triangle that are saved and put back.
ghost use Rattle.std.specs.Prelude.{◌≡◌, ◌+◌, ◌≤◌, length, take, drop, ◌++◌, IfOk};

use geo_base::NoMemory;
use lent_parts::Tri;
use std::alloc::Global;

// The rows of a triangle from place `first` on, once more.
pub(crate) fn rows_from(alloc: Global, from: &Tri, first: u32) -> Result<Tri, NoMemory>
    requires { first ≤ length from.now }
    ensures { IfOk result (λ saved. saved ≡ drop first from.now) }
{
    let mut saved = Tri::new(alloc, from.size() - first)?;
    save_rows(from, first, &mut saved);
    Ok(saved)
}

// Writes the rows of a triangle from place `first` on into a smaller one.
fn save_rows(from: &Tri, first: u32, to: &mut Tri)
    requires { first + length to.old ≡ length from.now }
    ensures { to.new ≡ drop first from.now }
{
    for place in first..from.size() {
        copy_row(from.row(place), to.row_mut(place - first));
    }
}

// Writes the rows of a smaller triangle over those from place `first` on.
pub(crate) fn put_rows(from: &Tri, to: &mut Tri, first: u32)
    requires { first + length from.now ≡ length to.old }
    ensures { to.new ≡ take first to.old ++ from.now }
{
    for place in first..to.size() {
        copy_row(from.row(place - first), to.row_mut(place));
    }
}

// Writes one row over another of the same length.
fn copy_row(from: &[i128], to: &mut [i128])
    requires { length from.now ≡ length to.old }
    ensures { to.new ≡ from.now }
{
    to.copy_from_slice(from);
}
