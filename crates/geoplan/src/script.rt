//! The command `trial`.
ghost use Rattle.geoplan.specs.CommandView.{sources_view};
ghost use Rattle.geoplan.specs.Loading.{IsGoodNetwork};
ghost use Rattle.geoplan.specs.Trying.{Tries};

use crate::file_kind::FileKind;
use crate::load::read_file;
use crate::outcome::Outcome;
use crate::refusal::refuse;
use crate::sources::Sources;
use crate::status::Status;
use crate::tables::Tables;
use shelf_io::Shelf;
use std::alloc::Global;
use trial::run;

/// The answers to a script of trials, which is read, over tables.
pub fn answer_script<H: Shelf>(
    alloc: Global,
    tables: &Tables,
    shelf: &mut H,
    sources: &Sources<'_>,
) -> Outcome
    requires { IsGoodNetwork tables.now }
    ensures { Tries tables.now (sources_view sources.now) (H.state shelf.old) (H.state shelf.new) result.status result.text.items }
{
    let script = match read_file(alloc, sources, FileKind::Script, shelf) {
        Ok(script) => script,
        Err(why) => return refuse(alloc, why),
    };
    let text = run(
        alloc,
        tables.points(),
        tables.candidates(),
        tables.network(),
        script.as_slice(),
    );
    Outcome::made(alloc, Status::Found, text)
}
