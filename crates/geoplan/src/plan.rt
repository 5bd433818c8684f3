//! The command `plan`.
ghost use Rattle.std.specs.Prelude.{◌≡◌};
ghost use Rattle.plan_report.specs.Reported.{IsAnswerFor};
ghost use Rattle.geoplan.specs.Loading.{IsGoodNetwork};
ghost use Rattle.geoplan.specs.Reporting.{status_of, Reports};
ghost use Rattle.geoplan.specs.Solving.{Plans};

use crate::outcome::Outcome;
use crate::solve::solve;
use crate::status::Status;
use crate::tables::Tables;
use branch_bound::{Answer, SearchDone, SearchFault};
use plan_report::report;
use shelf_io::Shelf;
use std::alloc::Global;

/// The status of an answer.
fn status_of(answer: &Answer) -> Status
    ensures { result ≡ status_of answer.now }
{
    match answer {
        Answer::Best(_) => Status::Found,
        Answer::NoPlan => Status::NoPlan,
        Answer::Undecided { .. } => Status::Undecided,
    }
}

/// The status and the report of an answer.
fn reported(alloc: Global, tables: &Tables, done: &SearchDone) -> Outcome
    requires good { IsGoodNetwork tables.now }
    requires answer { IsAnswerFor tables.now.network done.now.answer }
    ensures { Reports tables.now done.now.counts done.now.answer result.status result.text.items }
{
    let text = report(
        alloc,
        tables.points(),
        tables.candidates(),
        tables.network(),
        tables.redundancy(),
        done,
    );
    Outcome::made(alloc, status_of(&done.answer), text)
}

/// The search of the network of tables, whose log is written under a name, and the report of its
/// answer.
pub fn answer_plan<H: Shelf>(alloc: Global, tables: &Tables, shelf: &mut H, log: &str) -> Outcome
    requires { IsGoodNetwork tables.now }
    ensures { Plans tables.now log.now (H.state shelf.old) (H.state shelf.new) result.status result.text.items }
{
    match solve(alloc, tables, shelf, log) {
        Ok(done) => reported(alloc, tables, &done),
        Err(SearchFault::WriteFault) => Outcome::silent(alloc, Status::WriteFault),
        Err(SearchFault::NoMemory) => Outcome::silent(alloc, Status::NoMemory),
    }
}
