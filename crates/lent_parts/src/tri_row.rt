ghost use Rattle.std.specs.Prelude.{◌≡◌, pos, replicate, IfOk};
ghost use Rattle.std.specs.Borrow.{sem};
ghost use Rattle.lent_parts.specs.Lending.{LendsEntries};

use geo_base::NoMemory;
use std::alloc::Global;
use std::marker::Model;

/// A row of a triangle. Contracts see it as the list of its entries.
#[derive(Debug, Drop)]
pub struct TriRow {
    entries: Vec<i128>,
}

impl Model for TriRow {
    ghost use Rattle.std.specs.Prelude.{List, ℤ};

    ghost Value = { List ℤ };

    ghost view = { λ row. row.entries.items };
}

impl TriRow {
    /// A row of `n` zeros.
    pub fn zeros(alloc: Global, n: u32) -> Result<TriRow, NoMemory>
        ensures { IfOk result (λ row. row ≡ replicate n (pos 0)) }
    {
        let entries = vec![in alloc; 0i128; n as usize]?;
        Ok(TriRow { entries })
    }

    /// The entries.
    pub fn entries(&self) -> &[i128]
        ensures { result.now ≡ self.now }
    {
        self.entries.as_slice()
    }

    /// The entries, for writing.
    pub fn entries_mut(&mut self) -> &mut [i128]
        ensures* writes_back { sem 𝓛 (LendsEntries self.entry result) }
        ensures value { result.now ≡ self.old }
    {
        self.entries.as_mut_slice()
    }
}
