//! A log of either format as one of format 2.
ghost use Rattle.std.specs.Prelude.{IfOk, IfErr};
ghost use Rattle.geo_model.specs.Network.{NetworkOf};
ghost use Rattle.bound_log.specs.LogTree.{IsLog};
ghost use Rattle.bound_log.specs.Tree.{Tree};
ghost use Rattle.log_migrate.specs.Migrated.{IsMigrated, IsSomeLog, IsWhy};

use crate::answer::MigrateAnswer;
use crate::writing::write_log;
use bound_log::{LogFormat, head_format};
use lent_parts::lines;
use std::alloc::Global;

/// The text of format 2 of a log: a log of that format is copied; in one of format 1 each cut is
/// named once, right before the first line that uses it, and each line uses it by its number. The
/// tree is the same, so the bound and the counts are. A log that needs more than 65536 names has no
/// such text.
pub fn migrate(alloc: Global, log: &[u8]) -> Result<Vec<u8>, MigrateAnswer>
    requires { IsSomeLog log.now }
    ensures migrated { IfOk result (λ text. (network : NetworkOf) (tree : Tree) → IsLog network log.now tree → IsMigrated network tree log.now text.items) }
    ensures cause { IfErr result (λ why. (network : NetworkOf) (tree : Tree) → IsLog network log.now tree → IsWhy tree log.now why) }
{
    let mut left = lines(log);
    let Some(head) = left.next() else {
        unreachable!()
    };
    match head_format(head.text) {
        Some(LogFormat::First) => match write_log(alloc, left) {
            Ok(made) => Ok(made.text),
            Err(why) => Err(why),
        },
        Some(LogFormat::Second) => {
            let copy = Vec::from_slice(alloc, log)?;
            Ok(copy)
        }
        None => unreachable!(),
    }
}
