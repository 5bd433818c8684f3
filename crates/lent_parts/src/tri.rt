ghost use Rattle.std.specs.Prelude.{◌≡◌, ◌-◌, ◌<◌, ◌≤◌, length, take, IfOk, slice_set};
ghost use Rattle.std.specs.Borrow.{sem};
ghost use Rattle.lent_parts.specs.Triangle.{IsTri, zero_tri, tri_row};
ghost use Rattle.lent_parts.specs.TriLending.{LendsRow};

use crate::{Rows, TriRow};
use geo_base::NoMemory;
use std::alloc::Global;
use std::marker::Model;
use std::mem;

/// A symmetric matrix of whole numbers. Contracts see it as the list of its rows, where row `k` holds
/// the entries of row `k` of the matrix from the diagonal on. It keeps this shape: whoever writes a
/// row writes its entries and not its length.
///
/// One row is held outside the others, so that it can be written beside them.
#[derive(Debug, Drop)]
pub struct Tri {
    rows: Vec<TriRow>,
    held: TriRow,
    at: usize,
}

impl Model for Tri {
    ghost use Rattle.std.specs.Prelude.{List, ℤ, slice_set};
    ghost use Rattle.lent_parts.specs.Triangle.{IsKeptTriangle};

    ghost Value = { List (List ℤ) };

    ghost view = { λ tri. slice_set tri.rows.items tri.at tri.held };

    ghost invariant = { λ tri. IsKeptTriangle tri.rows.items tri.at tri.held };
}

impl Tri {
    #[tactic(auto, using(crate::proofs::Triangles::more_zeros, crate::proofs::Triangles::made_of_zeros))]
    /// The matrix of `n` rows with all entries 0.
    pub fn new(alloc: Global, n: u32) -> Result<Tri, NoMemory>
        requires { n ≤ 64 }
        ensures zeros { IfOk result (λ tri. tri ≡ zero_tri n) }
        ensures shape { IfOk result (λ tri. IsTri n tri) }
    {
        let mut rows = Vec::new(alloc);
        for k in 0..n {
            rows.push(TriRow::zeros(alloc, n - k)?)?;
        }
        let held = TriRow::zeros(alloc, n)?;
        Ok(Tri { rows, held, at: 0 })
    }

    /// The number of rows.
    pub fn size(&self) -> u32
        ensures rows { result ≡ length self.now }
        ensures most { result ≤ 64 }
        ensures shape { IsTri (length self.now) self.now }
    {
        self.rows.len() as u32
    }

    /// Row `k`, from the diagonal on.
    pub fn row(&self, k: u32) -> &[i128]
        requires { k < length self.now }
        ensures value { result.now ≡ tri_row self.now k }
        ensures places { length result.now ≡ length self.now - k }
        ensures shape { IsTri (length self.now) self.now }
    {
        let place = k as usize;
        if place == self.at {
            self.held.entries()
        } else {
            self.rows[place].entries()
        }
    }

    /// Row `k`, from the diagonal on, for writing. No other row changes.
    pub fn row_mut(&mut self, k: u32) -> &mut [i128]
        requires { k < length self.old }
        ensures* writes_back { sem 𝓛 (LendsRow self.entry k result) }
        ensures value { result.now ≡ tri_row self.old k }
        ensures places { length result.now ≡ length self.old - k }
        ensures shape { IsTri (length self.old) self.old }
    {
        let at = self.at;
        exchange(&mut self.rows, &mut self.held, at, k as usize);
        self.at = k as usize;
        self.held.entries_mut()
    }

    /// The rows before row `k` for reading, and row `k`, from the diagonal on, for writing. No other
    /// row changes, and none is copied.
    pub fn rows_before(&mut self, k: u32) -> (Rows<'_>, &mut [i128])
        requires { k < length self.old }
        ensures* writes_back { sem 𝓛 (LendsRow self.entry k result.1) }
        ensures before { result.0 ≡ take k self.old }
        ensures value { result.1.now ≡ tri_row self.old k }
        ensures places { length result.1.now ≡ length self.old - k }
        ensures shape { IsTri (length self.old) self.old }
    {
        let at = self.at;
        let place = k as usize;
        exchange(&mut self.rows, &mut self.held, at, place);
        self.at = place;
        let before = Rows::of(&self.rows[..place]);
        (before, self.held.entries_mut())
    }
}

// Puts the held row back in place `at` and takes row `k` out.
fn exchange(rows: &mut Vec<TriRow>, held: &mut TriRow, at: usize, k: usize)
    requires at_within { at < length rows.old.items }
    requires k_within { k < length rows.old.items }
    ensures held { held.new ≡ tri_row (slice_set rows.old.items at held.old) k }
    ensures rows { slice_set rows.new.items k held.new ≡ slice_set rows.old.items at held.old }
    ensures len { length rows.new.items ≡ length rows.old.items }
{
    mem::swap(&mut rows[at], held);
    mem::swap(&mut rows[k], held);
}
