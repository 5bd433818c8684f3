//! The cuts that a log of format 2 has named.
ghost use Rattle.std.specs.Prelude.{◌≡◌, ◌+◌, ◌<◌, ◌≤◌, ◌++◌, ◌∷◌, [], ℕ, true, length, IfOk, IsTrue, ◌↔◌};
ghost use Rattle.whole_algebra.specs.Matrices.{at};
ghost use Rattle.geo_model.specs.Row.{IsNarrow};
ghost use Rattle.bound_log.specs.CutText.{CutTextOf, displaced_by};
ghost use Rattle.bound_log.specs.Meanings.{cut_named};
ghost use Rattle.bound_log.specs.Rules.{is_displacement};

use geo_base::NoMemory;
use geo_model::Displacement;
use std::alloc::Global;
use std::marker::Model;

/// The most cuts that a log names.
const MOST_NAMES: usize = 65536;

/// The most unknowns of a network.
const MOST_UNKNOWNS: usize = 64;

/// A cut that a log has named: its limit, and how far it moves each unknown.
#[derive(Clone, Copy)]
pub struct StoredCut {
    pub limit: u32,
    pub moves: [i32; MOST_UNKNOWNS],
}

/// The cuts that a log has named, by their numbers from 0. Contracts see them as the list of what
/// their names spell. All their memory is taken at the start.
#[derive(Drop)]
pub struct NamedCuts {
    cuts: Vec<StoredCut>,
}

impl Model for NamedCuts {
    ghost use Rattle.std.specs.Prelude.{List, map, vec_capacity};
    ghost use Rattle.bound_log.specs.CutText.{CutTextOf};
    ghost use Rattle.log_check.specs.Naming.{AreNamesKept, text_of_stored};

    ghost Value = { List CutTextOf };

    ghost view = { λ named. map text_of_stored named.cuts.items };

    ghost invariant = { λ named. AreNamesKept (vec_capacity named.cuts) named.cuts.items };
}

impl NamedCuts {
    /// No cuts, with room for 65536 of them. Refused for want of memory alone.
    pub fn new(alloc: Global) -> Result<NamedCuts, NoMemory>
        ensures { IfOk result (λ made. made ≡ []) }
    {
        let cuts = Vec::with_capacity(alloc, MOST_NAMES)?;
        Ok(NamedCuts { cuts })
    }

    /// How many cuts are named.
    pub fn count(&self) -> u64
        ensures { result ≡ length self.now }
    {
        self.cuts.len() as u64
    }

    /// Whether no further cut can be named.
    pub fn is_full(&self) -> bool
        ensures { IsTrue result ↔ 65536 ≤ length self.now }
    {
        self.cuts.len() >= MOST_NAMES
    }

    /// Names a cut, whose displacement has the entries of `x`. It takes no memory.
    pub fn add(&mut self, limit: u32, x: &Displacement)
        requires few { length self.old < 65536 }
        requires long { length x.now ≤ 64 }
        ensures { (cut : CutTextOf) → cut.limit ≡ limit → is_displacement (length x.now) cut.pairs ≡ true → ((i : ℕ) → displaced_by cut.pairs i ≡ at x.now i)
            → self.new ≡ self.old ++ cut ∷ [] }
    {
        let moves = padded(x.entries());
        let _room = self.cuts.push(StoredCut { limit, moves });
    }

    /// The number of the limit of a cut.
    pub fn limit(&self, number: u64) -> u32
        requires { number < length self.now }
        ensures { result ≡ (cut_named self.now number).limit }
    {
        self.cuts[number as usize].limit
    }

    /// Writes the displacement of a cut. It takes no memory.
    pub fn write(&self, number: u64, x: &mut Displacement)
        requires number { number < length self.now }
        requires few { length x.old ≤ 64 }
        requires displacement { is_displacement (length x.old) (cut_named self.now number).pairs ≡ true }
        ensures written { (i : ℕ) → displaced_by (cut_named self.now number).pairs i ≡ at x.new i }
        ensures long { length x.new ≡ length x.old }
    {
        let cut = &self.cuts[number as usize];
        copy_moves(&cut.moves, x);
    }
}

// The entries, and 0 for each further unknown.
fn padded(entries: &[i32]) -> [i32; MOST_UNKNOWNS]
    requires { length entries.now ≤ 64 }
    ensures long { length result ≡ 64 }
    ensures same { (i : ℕ) → at result i ≡ at entries.now i }
{
    let mut moves = [0; MOST_UNKNOWNS];
    for (i, by) in entries.iter().enumerate() {
        moves[i] = *by;
    }
    moves
}

// Moves each unknown of a displacement as far as the entries say.
fn copy_moves(entries: &[i32], x: &mut Displacement)
    requires long { length entries.now ≡ 64 }
    requires narrow { IsNarrow (at entries.now) }
    requires few { length x.old ≤ 64 }
    ensures long { length x.new ≡ length x.old }
    ensures same { (i : ℕ) → i < length x.old → at x.new i ≡ at entries.now i }
{
    let unknowns = x.entries().len() as u32;
    for i in 0..unknowns {
        x.set(i, entries[i as usize]);
    }
}
