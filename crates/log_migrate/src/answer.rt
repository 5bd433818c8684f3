ghost use Rattle.std.specs.Prelude.{◌≡◌};
ghost use Rattle.log_migrate.specs.declared.answer.MigrateAnswer.TheVariants as migrate_answer;

use geo_base::NoMemory as WantOfMemory;
use std::alloc::{AllocError, AllocFailed};

/// Why a log has no text of format 2: it uses more than 65536 cuts; or want of memory, which says
/// nothing of the log.
#[derive(Clone, Copy, Debug, PartialEq, Eq)]
pub enum MigrateAnswer {
    TooManyCuts,
    NoMemory,
}

impl From<WantOfMemory> for MigrateAnswer {
    ghost from_gives = { λ _ answer. answer ≡ migrate_answer.NoMemory };

    fn from(_refused: WantOfMemory) -> MigrateAnswer {
        MigrateAnswer::NoMemory
    }
}

impl From<AllocError> for MigrateAnswer {
    ghost from_gives = { λ _ answer. answer ≡ migrate_answer.NoMemory };

    fn from(_refused: AllocError) -> MigrateAnswer {
        MigrateAnswer::NoMemory
    }
}

impl<T: Drop> From<AllocFailed<T>> for MigrateAnswer {
    ghost from_gives = { λ _ answer. answer ≡ migrate_answer.NoMemory };

    fn from(_refused: AllocFailed<T>) -> MigrateAnswer {
        MigrateAnswer::NoMemory
    }
}
