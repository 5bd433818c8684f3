ghost use Rattle.std.specs.Prelude.{◌≡◌, ◌↔◌, ◌<◌, ◌≤◌, ◌++◌, [], ◌∷◌, false, length, position, is_some, IfOk, OnOk, IsTrue};
ghost use Rattle.std.specs.List.{list_any};
ghost use Rattle.std.specs.Str.{bytes_eq};

use geo_base::NoMemory;
use indexmap::IndexSet;
use std::alloc::Global;
use std::marker::Model;

/// The most cuts that a log names.
const MOST_NAMES: usize = 65536;

/// The names that a log has given to cuts, each the bytes of its line, by their numbers from 0.
/// Contracts see them as the list of these lines.
#[derive(Drop)]
pub struct Names {
    names: IndexSet<Vec<u8>>,
}

impl Model for Names {
    ghost use Rattle.std.specs.Prelude.{ℕ, ◌≤◌, List, length, map};
    ghost use Rattle.indexmap.specs.IndexSet.{keys};

    ghost Value = { List (List ℕ) };

    ghost view = { λ named. map (λ name. name.items) (keys named.names) };

    ghost invariant = { λ named. length (keys named.names) ≤ 65536 };
}

impl Names {
    /// No names yet.
    pub fn new(alloc: Global) -> Names
        ensures { result ≡ [] }
    {
        Names {
            names: IndexSet::new(alloc),
        }
    }

    /// Whether no further cut can be named.
    pub fn is_full(&self) -> bool
        ensures full { IsTrue result ↔ 65536 ≤ length self.now }
        ensures few { length self.now ≤ 65536 }
    {
        self.names.len() >= MOST_NAMES
    }

    /// The number that this name gives. None where it isn't given.
    pub fn find(&self, name: &[u8]) -> Option<u32>
        ensures place { result ≡ position (bytes_eq name.now) self.now }
        ensures given { is_some result ≡ list_any (bytes_eq name.now) self.now }
        ensures few { length self.now ≤ 65536 }
    {
        match self.names.get_index_of(name) {
            Some(number) => Some(number as u32),
            None => None,
        }
    }

    /// Gives one more name, and answers its number.
    pub fn give(&mut self, name: Vec<u8>) -> Result<u32, NoMemory>
        requires few { length self.old < 65536 }
        requires other { list_any (bytes_eq name.items) self.old ≡ false }
        ensures number { IfOk result (λ number. number ≡ length self.old) }
        ensures given { OnOk result (self.new ≡ self.old ++ name.items ∷ []) }
    {
        let number = self.names.len() as u32;
        self.names.insert(name)?;
        Ok(number)
    }
}
