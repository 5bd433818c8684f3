ghost use Rattle.std.specs.Prelude.{◌≡◌};
ghost use Rattle.table_columns.specs.declared.refusal.Refusal.TheVariants as refusal;

use geo_base::NoMemory as WantOfMemory;
use std::alloc::{AllocError, AllocFailed};

/// Why a table was not read, over any kind of fault.
#[derive(Clone, Copy)]
pub enum Refusal<K> {
    /// The first record that breaks a rule: its number, counted from 1 at the header row, and the
    /// kind of the first rule that it breaks.
    Broken(u32, K),
    /// Memory ran out.
    NoMemory,
}

impl<K> From<WantOfMemory> for Refusal<K> {
    ghost from_gives = { λ _ made. made ≡ refusal.NoMemory };

    fn from(_refused: WantOfMemory) -> Refusal<K> {
        Refusal::NoMemory
    }
}

impl<K> From<AllocError> for Refusal<K> {
    ghost from_gives = { λ _ made. made ≡ refusal.NoMemory };

    fn from(_refused: AllocError) -> Refusal<K> {
        Refusal::NoMemory
    }
}

impl<K, T: Drop> From<AllocFailed<T>> for Refusal<K> {
    ghost from_gives = { λ _ made. made ≡ refusal.NoMemory };

    fn from(_refused: AllocFailed<T>) -> Refusal<K> {
        Refusal::NoMemory
    }
}
