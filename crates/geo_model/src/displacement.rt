ghost use Rattle.std.specs.Prelude.{◌≡◌, ◌<◌, ◌≤◌, ◌^◌, pos, neg_ℤ, ◌≤ℤ◌, Some, length, replicate, slice_get, slice_set, unsigned_abs, IfOk};
ghost use Rattle.whole_algebra.specs.Matrices.{at};
ghost use Rattle.geo_model.specs.Row.{IsNarrow};

use geo_base::NoMemory;
use std::alloc::Global;
use std::marker::Model;

/// A displacement: a whole number for each unknown of a network, in the unknown's unit (mm, or cc
/// of a station's orientation), at most 32768 in size. Contracts see it as the list of them.
#[derive(Debug, Drop)]
pub struct Displacement {
    entries: Vec<i32>,
}

impl Model for Displacement {
    ghost use Rattle.std.specs.Prelude.{List, ℤ};
    ghost use Rattle.whole_algebra.specs.Matrices.{at};
    ghost use Rattle.geo_model.specs.Row.{IsNarrow};

    ghost Value = { List ℤ };

    ghost view = { λ displacement. displacement.entries.items };

    ghost invariant = { λ displacement. IsNarrow (at displacement.entries.items) };
}

impl Displacement {
    /// The displacement of `n` unknowns that moves none. Refused for want of memory alone.
    pub fn new(alloc: Global, n: u32) -> Result<Displacement, NoMemory>
        ensures { IfOk result (λ x. x ≡ replicate n (pos 0)) }
    {
        let entries = vec![in alloc; 0; n as usize]?;
        Ok(Displacement { entries })
    }

    /// The entries, each by its unknown's number from 0.
    pub fn entries(&self) -> &[i32]
        ensures value { result.now ≡ self.now }
        ensures narrow { IsNarrow (at self.now) }
    {
        self.entries.as_slice()
    }

    /// The entry of unknown `i`, at most 32768 in size.
    pub fn get(&self, i: u32) -> i32
        requires { i < length self.now }
        ensures value { slice_get self.now i ≡ Some result }
        ensures narrow { unsigned_abs result ≤ 2 ^ 15 }
    {
        self.entries[i as usize]
    }

    /// Gives unknown `i` the entry `v`, from -32768 to 32768.
    pub fn set(&mut self, i: u32, v: i32)
        requires inside { i < length self.old }
        requires low { neg_ℤ (pos 32768) ≤ℤ v }
        requires high { v ≤ℤ pos 32768 }
        ensures { self.new ≡ slice_set self.old i v }
    {
        self.entries[i as usize] = v;
    }
}
