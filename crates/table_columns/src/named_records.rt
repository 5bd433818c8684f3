ghost use Rattle.std.specs.Prelude.{◌≡◌, ◌↔◌, ◌≢◌, ◌<◌, ◌≤◌, ◌++◌, [], ◌∷◌, ℕ, List, length, map, Some, None, IsNone, OnOk, OnErr, slice_get, false};
ghost use Rattle.table_columns.specs.Names.{is_among, place_of};

use geo_base::NoMemory;
use indexmap::IndexMap;
use std::alloc::Global;
use std::marker::Model;

/// A record of a table that has a name.
pub trait NamedRecord: Drop {
    /// Its name.
    ghost name_of: { Self → List ℕ };

    /// The bytes of its name.
    fn name(&self) -> &[u8]
        ensures { result.now ≡ name_of self.now };
}

/// Records in the order of their table, each of which is found by its name. Contracts see them as
/// the list of the records.
#[derive(Drop)]
pub struct NamedRecords<R: NamedRecord> {
    // Each record under the bytes of its name.
    records: IndexMap<Vec<u8>, R>,
}

impl<R: NamedRecord> Model for NamedRecords<R> {
    ghost use Rattle.std.specs.Prelude.{List};
    ghost use Rattle.indexmap.specs.IndexMap.{values};
    ghost use Rattle.table_columns.specs.Stored.{AreStored};

    ghost Value = { List R };

    ghost view = { λ named. values named.records };

    ghost invariant = { λ named. AreStored R.name_of 65535 named.records.entries };
}

impl<R: NamedRecord> NamedRecords<R> {
    /// No records yet.
    pub fn new(alloc: Global) -> NamedRecords<R>
        ensures { result ≡ [] }
    {
        NamedRecords {
            records: IndexMap::new(alloc),
        }
    }

    /// How many records there are.
    pub fn len(&self) -> u32
        ensures value { result ≡ length self.now }
        ensures few { result ≤ 65535 }
    {
        self.records.len() as u32
    }

    /// Record `k`, counted from 0.
    pub fn get(&self, k: u32) -> &R
        requires { k < length self.now }
        ensures { slice_get self.now k ≡ Some result.now }
    {
        match self.records.get_index(k as usize) {
            Some((_, record)) => record,
            None => unreachable!(),
        }
    }

    /// The number of the record of this name, counted from 0. None where no record has it.
    pub fn find(&self, name: &[u8]) -> Option<u32>
        ensures place { result ≡ place_of name.now (map R.name_of self.now) }
        ensures found { (k : ℕ) → (result ≡ Some k) ↔ (slice_get (map R.name_of self.now) k ≡ Some name.now) }
        ensures none { IsNone result ↔ ((k : ℕ) → slice_get (map R.name_of self.now) k ≢ Some name.now) }
    {
        match self.records.get_index_of(name) {
            Some(place) => Some(place as u32),
            None => None,
        }
    }

    /// Adds a record behind the others. Where memory runs out the records stay as they were.
    pub fn push(&mut self, alloc: Global, added: R) -> Result<(), NoMemory>
        requires few { length self.old < 65535 }
        requires other { is_among (R.name_of added) (map R.name_of self.old) ≡ false }
        ensures ok { OnOk result (self.new ≡ self.old ++ added ∷ []) }
        ensures err { OnErr result (self.new ≡ self.old) }
    {
        let name = Vec::from_slice(alloc, added.name())?;
        self.records.insert(name, added)?;
        Ok(())
    }
}
