//! The command `rows`.
ghost use Rattle.geoplan.specs.Loading.{IsGoodNetwork};
ghost use Rattle.geoplan.specs.Reporting.{Ends};
ghost use Rattle.geoplan.specs.Texts.{tables_rows_text};
ghost use Rattle.geoplan.specs.declared.status.Status.TheVariants as status;

use crate::outcome::Outcome;
use crate::status::Status;
use crate::tables::Tables;
use plan_report::rows_text;
use std::alloc::Global;

/// The unknowns and rows of tables.
pub fn answer_rows(alloc: Global, tables: &Tables) -> Outcome
    requires { IsGoodNetwork tables.now }
    ensures { Ends status.Found (tables_rows_text tables.now) result.status result.text.items }
{
    let text = rows_text(
        alloc,
        tables.points(),
        tables.candidates(),
        tables.network(),
    );
    Outcome::made(alloc, Status::Found, text)
}
