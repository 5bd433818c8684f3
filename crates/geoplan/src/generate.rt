//! The command `gen`.
ghost use Rattle.std.specs.Prelude.{◌≡◌, ◌≤◌, IfErr, IfOk, OnOk};
ghost use Rattle.geoplan.specs.CommandView.{sources_view};
ghost use Rattle.geoplan.specs.Writing.{WritesFile, FailsFile, WritesBoth, FailsBoth, Generates};
ghost use Rattle.geoplan.specs.WrittenTables.{written_text};

use crate::outcome::Outcome;
use crate::sources::Sources;
use crate::status::Status;
use gen_net::{gen_candidates, gen_points};
use geo_base::NoMemory;
use shelf_io::{Shelf, WriteAnswer};
use std::alloc::Global;

/// Writes a text under a name.
pub fn write_file<H: Shelf>(shelf: &mut H, name: &str, text: &[u8]) -> Result<(), WriteAnswer>
    ensures written { OnOk result (WritesFile name.now text.now (H.state shelf.old) (H.state shelf.new)) }
    ensures fault { IfErr result (λ why. FailsFile name.now text.now why (H.state shelf.old) (H.state shelf.new)) }
{
    match shelf.start(name) {
        Ok(()) => {}
        Err(why) => return Err(why),
    }
    shelf.append(name, text)
}

/// Writes the tables of a seed of at most 999999. Both are made before the first one is written.
fn write_tables<H: Shelf>(
    alloc: Global,
    sources: &Sources<'_>,
    shelf: &mut H,
) -> Result<(), WriteAnswer>
    requires { sources.now.seed ≤ 999999 }
    ensures written { OnOk result (WritesBoth (sources_view sources.now) (H.state shelf.old) (H.state shelf.new)) }
    ensures fault { IfErr result (λ why. FailsBoth (sources_view sources.now) why (H.state shelf.old) (H.state shelf.new)) }
{
    let points = match gen_points(alloc, sources.seed) {
        Ok(points) => points,
        Err(NoMemory) => return Err(WriteAnswer::NoMemory),
    };
    let candidates = match gen_candidates(alloc, sources.seed) {
        Ok(candidates) => candidates,
        Err(NoMemory) => return Err(WriteAnswer::NoMemory),
    };
    match write_file(shelf, sources.points, points.as_slice()) {
        Ok(()) => {}
        Err(why) => return Err(why),
    }
    write_file(shelf, sources.candidates, candidates.as_slice())
}

/// What is printed once both tables are written.
fn written(alloc: Global) -> Result<Vec<u8>, NoMemory>
    ensures { IfOk result (λ text. text.items ≡ written_text) }
{
    Ok(Vec::from_slice(alloc, b"written\n")?)
}

/// Writes the tables of a seed of at most 999999 under the names of the tables, and says so.
pub fn answer_gen<H: Shelf>(alloc: Global, sources: &Sources<'_>, shelf: &mut H) -> Outcome
    requires { sources.now.seed ≤ 999999 }
    ensures { Generates (sources_view sources.now) (H.state shelf.old) (H.state shelf.new) result.status result.text.items }
{
    match write_tables(alloc, sources, shelf) {
        Ok(()) => Outcome::made(alloc, Status::Found, written(alloc)),
        Err(WriteAnswer::Failed) => Outcome::silent(alloc, Status::WriteFault),
        Err(WriteAnswer::NoMemory) => Outcome::silent(alloc, Status::NoMemory),
    }
}
