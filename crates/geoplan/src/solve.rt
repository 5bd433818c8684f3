//! Searching the network of the tables, and writing its log.
ghost use Rattle.std.specs.Prelude.{◌≡◌, IfOk, IfErr};
ghost use Rattle.geoplan.specs.Solving.{Solves, FailsSolve};

use crate::tables::Tables;
use branch_bound::{SearchDone, SearchFault, search};
use shelf_io::{Shelf, WriteAnswer};
use std::alloc::Global;

/// Starts the log and searches the network of the tables.
pub fn solve<H: Shelf>(
    alloc: Global,
    tables: &Tables,
    shelf: &mut H,
    log: &str,
) -> Result<SearchDone, SearchFault>
    ensures solved { IfOk result (λ done. Solves tables.now log.now done (H.state shelf.old) (H.state shelf.new)) }
    ensures fault { IfErr result (λ why. FailsSolve tables.now log.now why (H.state shelf.old) (H.state shelf.new)) }
{
    match shelf.start(log) {
        Ok(()) => {}
        Err(WriteAnswer::Failed) => return Err(SearchFault::WriteFault),
        Err(WriteAnswer::NoMemory) => return Err(SearchFault::NoMemory),
    }
    search(alloc, tables.network(), shelf, log)
}
