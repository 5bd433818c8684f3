ghost use Rattle.std.specs.Prelude.{◌≡◌};
ghost use Rattle.shelf_io.specs.declared.write_answer.WriteAnswer.TheVariants as write_answer;

use geo_base::NoMemory as WantOfMemory;
use std::alloc::{AllocError, AllocFailed};

/// Why bytes were not written.
#[derive(Clone, Copy, Debug, PartialEq, Eq)]
pub enum WriteAnswer {
    /// The device did not take all of the bytes.
    Failed,
    /// Memory ran out.
    NoMemory,
}

impl From<WantOfMemory> for WriteAnswer {
    ghost from_gives = { λ _ answer. answer ≡ write_answer.NoMemory };

    fn from(_refused: WantOfMemory) -> WriteAnswer {
        WriteAnswer::NoMemory
    }
}

impl From<AllocError> for WriteAnswer {
    ghost from_gives = { λ _ answer. answer ≡ write_answer.NoMemory };

    fn from(_refused: AllocError) -> WriteAnswer {
        WriteAnswer::NoMemory
    }
}

impl<T: Drop> From<AllocFailed<T>> for WriteAnswer {
    ghost from_gives = { λ _ answer. answer ≡ write_answer.NoMemory };

    fn from(_refused: AllocFailed<T>) -> WriteAnswer {
        WriteAnswer::NoMemory
    }
}
