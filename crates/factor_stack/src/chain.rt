//! The rows of a chain as they are stored.
ghost use Rattle.std.specs.Prelude.{◌≡◌, ◌≢◌, ℕ, ◌+◌, ◌<◌, ◌≤◌, ◌^◌, ℤ, pos, ◌≤ℤ◌, List, length, take, drop, ◌++◌, unsigned_abs, IsNone, None, IfOk};
ghost use Rattle.whole_algebra.specs.Matrices.{at};
ghost use Rattle.whole_algebra.specs.Grid.{row_at};
ghost use Rattle.lent_parts.specs.Triangle.{tri_row};
ghost use Rattle.chain_step.specs.Step.{IsPivotRow};
ghost use Rattle.pivot_chain.specs.Chain.{HasGaps, IsSmall};
ghost use Rattle.factor_stack.specs.Stored.{count_of, stop_within};
ghost use Rattle.factor_stack.specs.Running.{HasRun};

use crate::rows::{put_rows, rows_from};
use chain_step::Side;
use geo_base::NoMemory;
use lent_parts::Tri;
use pivot_chain::{Stop, slack_of_row, step_row};
use std::alloc::Global;

/// The rows of a chain, and where it stops. The rows after the stop are of no use.
#[derive(Debug, Drop)]
pub struct Chain {
    pub rows: Tri,
    pub stop: Option<Stop>,
}

impl Chain {
    // A chain of `n` rows, none of them computed.
    pub(crate) fn new(alloc: Global, n: u32) -> Result<Chain, NoMemory>
        requires { n ≤ 64 }
        ensures rows { IfOk result (λ chain. length chain.rows ≡ n) }
        ensures stop { IfOk result (λ chain. chain.stop ≡ None) }
    {
        let rows = Tri::new(alloc, n)?;
        Ok(Chain { rows, stop: None })
    }

    // Takes the stop off, unless it lies in the first `first` rows.
    pub(crate) fn cut(&mut self, first: u32)
        ensures rows { self.new.rows ≡ self.old.rows }
        ensures stop { self.new.stop ≡ stop_within first self.old.stop }
    {
        if let Some(stop) = self.stop {
            if stop.step > first {
                self.stop = None;
            }
        }
    }

    // Takes on row `k` of a matrix the steps of the rows before it, and counts in `gaps` its quotients
    // that aren't whole, as those rows counted theirs; unless the chain has stopped.
    pub(crate) fn take_row(&mut self, side: Side, matrix: &mut Tri, gaps: &mut Tri, k: u32)
        requires within { k < length self.old.rows }
        requires same { length matrix.old ≡ length self.old.rows }
        requires few { length self.old.rows ≤ 64 }
        requires pivots { IsNone self.old.stop → (j : ℕ) → j < k → IsPivotRow (tri_row self.old.rows j) }
        requires size { (m : ℕ) → unsigned_abs (at (tri_row matrix.old k) m) < 2 ^ 109 }
        requires head { at (tri_row matrix.old k) 0 ≤ℤ pos (2 ^ 60 + 64) }
        requires gaps { length gaps.old ≡ length self.old.rows }
        requires counted { HasGaps self.old.rows gaps.old (count_of k self.old.stop) }
        ensures run { (first : List (List ℤ)) → IsSmall first → HasRun side first k self.old → tri_row matrix.old k ≡ row_at first k → HasRun side first (k + 1) self.new }
        ensures others { (j : ℕ) → j < k → tri_row self.new.rows j ≡ tri_row self.old.rows j }
        ensures places { length self.new.rows ≡ length self.old.rows }
        ensures left { length matrix.new ≡ length matrix.old }
        ensures gaps { length gaps.new ≡ length gaps.old }
        ensures gap_others { (j : ℕ) → j < k → tri_row gaps.new j ≡ tri_row gaps.old j }
        ensures counted { HasGaps self.new.rows gaps.new (count_of (k + 1) self.new.stop) }
    {
        if self.stop.is_some() {
            return;
        }
        let slack = slack_of_row(&self.rows, gaps, k);
        if let Some(value) = step_row(side, matrix, &mut self.rows, gaps, slack, k) {
            self.stop = Some(Stop { step: k + 1, value });
        }
    }

    // The rows from place `first` on, and the stop, once more.
    pub(crate) fn save(&self, alloc: Global, first: u32) -> Result<Chain, NoMemory>
        requires { first ≤ length self.now.rows }
        ensures rows { IfOk result (λ saved. saved.rows ≡ drop first self.now.rows) }
        ensures stop { IfOk result (λ saved. saved.stop ≡ self.now.stop) }
    {
        let rows = rows_from(alloc, &self.rows, first)?;
        Ok(Chain {
            rows,
            stop: self.stop,
        })
    }

    // Puts saved rows in their places from `first` on, and the saved stop.
    pub(crate) fn give_back(&mut self, first: u32, saved: &Chain)
        requires { first + length saved.now.rows ≡ length self.old.rows }
        ensures rows { self.new.rows ≡ take first self.old.rows ++ saved.now.rows }
        ensures stop { self.new.stop ≡ saved.now.stop }
    {
        put_rows(&saved.rows, &mut self.rows, first);
        self.stop = saved.stop;
    }
}
