ghost use Rattle.std.specs.Prelude.{◌≡◌, ◌↔◌, ◌+◌, ◌<◌, ◌^◌, ◌++◌, ◌∷◌, [], ℕ, Some, length, slice_get, IfOk, IfSome, IfNone, OnOk, OnErr};

use geo_base::NoMemory;
use std::alloc::Global;
use std::marker::Model;

/// The names that the cuts of a pool have in a log: a cut's name is how many cuts were named before
/// it. Contracts see the numbers of the named cuts in the pool, in the order of their names.
#[derive(Debug, Drop)]
pub struct Names {
    numbers: Vec<u32>,
    // The name of each cut by its number in the pool; a cut past the end has none.
    names: Vec<Option<u32>>,
}

impl Model for Names {
    ghost use Rattle.std.specs.Prelude.{ℕ, List};
    ghost use Rattle.branch_bound.specs.Naming.{TellsNames};

    ghost Value = { List ℕ };

    ghost view = { λ names. names.numbers.items };

    ghost invariant = { λ names. TellsNames names.names.items names.numbers.items };
}

impl Names {
    /// No names. It takes no memory.
    pub fn new(alloc: Global) -> Names
        ensures { result ≡ [] }
    {
        Names {
            numbers: Vec::new(alloc),
            names: Vec::new(alloc),
        }
    }

    /// The name of the cut of a number, if it has one.
    pub fn get(&self, number: u32) -> Option<u32>
        ensures some { IfSome result (λ name. slice_get self.now name ≡ Some number) }
        ensures none { IfNone result ((name : ℕ) → slice_get self.now name ≡ Some number → ⊥) }
    {
        if number as usize >= self.names.len() {
            return None;
        }
        self.names[number as usize]
    }

    /// Names the cut of a number, which has no name, and answers its name. Refused for want of memory
    /// alone; the names are then as they were.
    pub fn add(&mut self, number: u32) -> Result<u32, NoMemory>
        requires few { length self.old < 2 ^ 32 }
        requires absent { (name : ℕ) → slice_get self.old name ≡ Some number → ⊥ }
        ensures name { IfOk result (λ name. name ≡ length self.old) }
        ensures added { OnOk result (self.new ≡ self.old ++ number ∷ []) }
        ensures refused { OnErr result (self.new ≡ self.old) }
    {
        reach(&mut self.names, number)?;
        let name = self.numbers.len() as u32;
        self.numbers.push(number)?;
        self.names[number as usize] = Some(name);
        Ok(name)
    }
}

// Makes places up to that of a number, without names.
fn reach(names: &mut Vec<Option<u32>>, number: u32) -> Result<(), NoMemory>
    ensures long { OnOk result (number < length names.new.items) }
    ensures same { (k name : ℕ) → (slice_get names.new.items k ≡ Some (Some name)) ↔ (slice_get names.old.items k ≡ Some (Some name)) }
{
    while names.len() <= number as usize {
        names.push(None)?;
    }
    Ok(())
}
