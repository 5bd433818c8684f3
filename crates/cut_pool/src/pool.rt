ghost use Rattle.std.specs.Prelude.{◌≡◌, ◌↔◌, ◌<◌, ◌^◌, ◌++◌, ◌∷◌, [], Ok, Some, true, false, length, map, slice_get, Any, OnErr};
ghost use Rattle.cut_pool.specs.Pool.{IsPool, IsSameCut, KeepsKeys, cut_key, with_entry};

use crate::cut::Cut;
use geo_base::NoMemory;
use std::alloc::Global;
use std::marker::Model;

// What a key is multiplied by where an entry is worked in: Knuth's multiplicative hash, 2^32 over the
// golden ratio.
const MULTIPLIER: u32 = 2_654_435_761;

/// A list of cuts, no two of the same limit and displacement. Contracts see it as that list.
#[derive(Debug, Drop)]
pub struct CutPool {
    cuts: Vec<Cut>,
    // The key of each cut, by its number: so a cut is looked for among narrow numbers, and only those of
    // its key are compared with it. Past the cuts a key may stand that no cut followed.
    keys: Vec<u32>,
}

impl Model for CutPool {
    ghost use Rattle.std.specs.Prelude.{List};
    ghost use Rattle.cut_pool.specs.Cut.{CutOf};
    ghost use Rattle.cut_pool.specs.Pool.{IsPool, KeepsKeys};

    ghost Value = { List CutOf };

    ghost view = { λ pool. pool.cuts.items };

    ghost invariant = { λ pool. IsPool pool.cuts.items × KeepsKeys pool.cuts.items pool.keys.items };
}

impl CutPool {
    /// The pool of no cuts. It takes no memory.
    pub fn new(alloc: Global) -> CutPool
        ensures { result ≡ [] }
    {
        CutPool {
            cuts: Vec::new(alloc),
            keys: Vec::new(alloc),
        }
    }

    /// Adds a cut at the end, and answers whether it did: it does not where a cut of the same limit
    /// and displacement is there. Refused for want of memory alone; the pool is then as it was. The
    /// pool has fewer than 2^31 cuts. A cut that isn't added is dropped.
    pub fn add(&mut self, cut: Cut) -> Result<bool, NoMemory>
        requires { length self.old < 2 ^ 31 }
        ensures there { result ≡ Ok false → Any (λ other. IsSameCut other cut) self.old }
        ensures absent { result ≡ Ok true → Any (λ other. IsSameCut other cut) self.old → ⊥ }
        ensures added { result ≡ Ok true → self.new ≡ self.old ++ cut ∷ [] }
        ensures kept { result ≡ Ok false → self.new ≡ self.old }
        ensures refused { OnErr result (self.new ≡ self.old) }
    {
        let key = cut_key(&cut);
        self.keys.truncate(self.cuts.len());
        if has_same(self.cuts.as_slice(), self.keys.as_slice(), &cut, key) {
            return Ok(false);
        }
        self.keys.push(key)?;
        self.cuts.push(cut)?;
        Ok(true)
    }

    /// How many cuts there are: at most 2^31.
    pub fn len(&self) -> u32
        ensures value { result ≡ length self.now }
        ensures pool { IsPool self.now }
    {
        self.cuts.len() as u32
    }

    /// Cut `k`, from 0.
    pub fn get(&self, k: u32) -> &Cut
        requires { k < length self.now }
        ensures { slice_get self.now k ≡ Some result.now }
    {
        &self.cuts[k as usize]
    }
}

// The key of a cut.
fn cut_key(cut: &Cut) -> u32
    ensures { result ≡ cut_key cut.now }
{
    let mut key = cut.limit;
    for entry in cut.x.entries() {
        key = with_entry(key, *entry);
    }
    key
}

// A key with an entry of a displacement worked in.
fn with_entry(key: u32, entry: i32) -> u32
    ensures { result ≡ with_entry key entry }
{
    key.wrapping_mul(MULTIPLIER)
        .wrapping_add(entry.unsigned_abs())
}

// Whether a cut of the same limit and displacement, and so of the same key, is among these.
fn has_same(cuts: &[Cut], keys: &[u32], cut: &Cut, key: u32) -> bool
    requires keys { keys.now ≡ map cut_key cuts.now }
    requires key { key ≡ cut_key cut.now }
    ensures there { result ≡ true → Any (λ other. IsSameCut other cut.now) cuts.now }
    ensures absent { result ≡ false → Any (λ other. IsSameCut other cut.now) cuts.now → ⊥ }
{
    for (number, other) in cuts.iter().enumerate() {
        if keys[number] == key && is_same(other, cut) {
            return true;
        }
    }
    false
}

// Whether two cuts are of the same limit and displacement.
fn is_same(other: &Cut, cut: &Cut) -> bool
    ensures same { result ≡ true → IsSameCut other.now cut.now }
    ensures apart { result ≡ false → IsSameCut other.now cut.now → ⊥ }
{
    other.limit == cut.limit && other.x.entries() == cut.x.entries()
}
