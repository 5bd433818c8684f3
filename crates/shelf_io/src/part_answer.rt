ghost use Rattle.std.specs.Prelude.{◌≡◌};
ghost use Rattle.shelf_io.specs.declared.part_answer.PartAnswer.TheVariants as part_answer;

use geo_base::NoMemory as WantOfMemory;
use std::alloc::{AllocError, AllocFailed};

/// Why a part of a file was not read.
#[derive(Clone, Copy, Debug, PartialEq, Eq)]
pub enum PartAnswer {
    /// The device did not give the part, or the file is not there.
    Failed,
    /// Memory ran out.
    NoMemory,
}

impl From<WantOfMemory> for PartAnswer {
    ghost from_gives = { λ _ answer. answer ≡ part_answer.NoMemory };

    fn from(_refused: WantOfMemory) -> PartAnswer {
        PartAnswer::NoMemory
    }
}

impl From<AllocError> for PartAnswer {
    ghost from_gives = { λ _ answer. answer ≡ part_answer.NoMemory };

    fn from(_refused: AllocError) -> PartAnswer {
        PartAnswer::NoMemory
    }
}

impl<T: Drop> From<AllocFailed<T>> for PartAnswer {
    ghost from_gives = { λ _ answer. answer ≡ part_answer.NoMemory };

    fn from(_refused: AllocFailed<T>) -> PartAnswer {
        PartAnswer::NoMemory
    }
}
