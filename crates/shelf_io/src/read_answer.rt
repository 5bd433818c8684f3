ghost use Rattle.std.specs.Prelude.{◌≡◌};
ghost use Rattle.shelf_io.specs.declared.read_answer.ReadAnswer.TheVariants as read_answer;

use geo_base::NoMemory as WantOfMemory;
use std::alloc::{AllocError, AllocFailed};

/// Why a file was not read.
#[derive(Clone, Copy, Debug, PartialEq, Eq)]
pub enum ReadAnswer {
    /// The device did not give the file, or the file is not there.
    Failed,
    /// The file has more bytes than the call allows.
    TooLong,
    /// Memory ran out.
    NoMemory,
}

impl From<WantOfMemory> for ReadAnswer {
    ghost from_gives = { λ _ answer. answer ≡ read_answer.NoMemory };

    fn from(_refused: WantOfMemory) -> ReadAnswer {
        ReadAnswer::NoMemory
    }
}

impl From<AllocError> for ReadAnswer {
    ghost from_gives = { λ _ answer. answer ≡ read_answer.NoMemory };

    fn from(_refused: AllocError) -> ReadAnswer {
        ReadAnswer::NoMemory
    }
}

impl<T: Drop> From<AllocFailed<T>> for ReadAnswer {
    ghost from_gives = { λ _ answer. answer ≡ read_answer.NoMemory };

    fn from(_refused: AllocFailed<T>) -> ReadAnswer {
        ReadAnswer::NoMemory
    }
}
