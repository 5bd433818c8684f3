//! The answer of a command, before anything is printed.
ghost use Rattle.std.specs.Prelude.{◌≤◌};
ghost use Rattle.geoplan.specs.CommandView.{HasShortNumbers, command_view};
ghost use Rattle.geoplan.specs.Loading.{ReadsTables};
ghost use Rattle.geoplan.specs.Standing.{IsOutcomeOf};

use crate::check::answer_check;
use crate::command::Command;
use crate::generate::answer_gen;
use crate::load::load;
use crate::migrate::answer_migrate;
use crate::outcome::Outcome;
use crate::plan::answer_plan;
use crate::refusal::refuse;
use crate::rows::answer_rows;
use crate::script::answer_script;
use crate::seed_search::answer_bench;
use crate::verb::Verb;
use shelf_io::Shelf;
use std::alloc::Global;

/// The answer of a command over two tables: what its files give, and what it does with them. Its
/// redundancy is at most 999.
fn answer_tables<H: Shelf>(alloc: Global, command: &Command<'_>, shelf: &mut H) -> Outcome
    requires redundancy { command.now.sources.redundancy ≤ 999 }
    requires tables { ReadsTables command.now.verb }
    ensures { IsOutcomeOf (command_view command.now) (H.state shelf.old) (H.state shelf.new) result.status result.text.items }
{
    let tables = match load(alloc, command, shelf) {
        Ok(tables) => tables,
        Err(why) => return refuse(alloc, why),
    };
    let log = command.sources.log;
    match command.verb {
        Verb::Plan => answer_plan(alloc, &tables, shelf, log),
        Verb::Rows => answer_rows(alloc, &tables),
        Verb::Check => answer_check(alloc, &tables, shelf, log),
        Verb::Trial => answer_script(alloc, &tables, shelf, &command.sources),
        Verb::Migrate => answer_migrate(alloc, &tables, shelf, &command.sources),
        Verb::Gen | Verb::Bench => unreachable!(),
    }
}

/// The answer of a command.
pub fn answer<H: Shelf>(alloc: Global, command: &Command<'_>, shelf: &mut H) -> Outcome
    requires { HasShortNumbers command.now.sources }
    ensures { IsOutcomeOf (command_view command.now) (H.state shelf.old) (H.state shelf.new) result.status result.text.items }
{
    match command.verb {
        Verb::Gen => answer_gen(alloc, &command.sources, shelf),
        Verb::Bench => answer_bench(alloc, command.sources.seed),
        Verb::Plan | Verb::Rows | Verb::Check | Verb::Trial | Verb::Migrate => {
            answer_tables(alloc, command, shelf)
        }
    }
}
