//! Laws of what the top call promises. Each function is its contract: it does nothing.
ghost use Rattle.std.specs.Prelude.{◌≡◌, ℕ, List, Some};
ghost use Rattle.std.specs.Option.{ForSome};
ghost use Rattle.shelf_io.specs.States.{ShelfState, SinkState};
ghost use Rattle.geo_model.specs.Prices.{price_of};
ghost use Rattle.bound_log.specs.declared.bound.Bound.TheVariants.{NoPlan};
ghost use Rattle.geoplan.specs.Checked.{planning, ChecksWith};
ghost use Rattle.geoplan.specs.CommandOf.{SourcesOf, CommandOf, FileOf, command_of};
ghost use Rattle.geoplan.specs.Ends.{AreHeldTables};
ghost use Rattle.geoplan.specs.Outcomes.{priced, FindsPlan, FindsNone, LeavesOpen, FailsToRead};
ghost use Rattle.geoplan.specs.Promises.{IsUnwritten};
ghost use Rattle.geoplan.specs.Tables.{TablesOf};

use shelf_io::{Shelf, Sink, SureShelf, SureSink};

/// Whatever `plan` left, `check` over the same files accepts its log, with the counts of its lines and
/// with the printed bound: the price of the plan, or none. `check` reads logs of up to 268435456 bytes.
pub fn what_plan_writes_check_accepts()
    ensures plan { (words : List (List ℕ)) (sources : SourcesOf) (tables : TablesOf) (before now : ShelfState) (text : List ℕ) →
        command_of words ≡ Some (planning sources) → AreHeldTables (planning sources) before.held tables →
        (found : FindsPlan tables sources.log before now text) →
        ForSome now.held (ChecksWith sources tables (priced (price_of tables.network found.plan) found.counts)) }
    ensures none { (words : List (List ℕ)) (sources : SourcesOf) (tables : TablesOf) (before now : ShelfState) (text : List ℕ) →
        command_of words ≡ Some (planning sources) → AreHeldTables (planning sources) before.held tables →
        (found : FindsNone tables sources.log before now text) →
        ForSome now.held (ChecksWith sources tables (record { bound = NoPlan; counts = found.counts })) }
    ensures undecided { (words : List (List ℕ)) (sources : SourcesOf) (tables : TablesOf) (before now : ShelfState) (text : List ℕ) →
        command_of words ≡ Some (planning sources) → AreHeldTables (planning sources) before.held tables →
        (left : LeavesOpen tables sources.log before now text) →
        ForSome now.held (ChecksWith sources tables (priced (price_of tables.network left.plan) left.counts)) }
{}

/// Over a shelf and a sink of which no call fails, what statuses 5 and 6 say doesn't come.
pub fn sure_calls_do_not_fail()
    ensures reads { (files : List FileOf) (before now : SureShelf) (text : List ℕ) →
        FailsToRead files (⟦<SureShelf as Shelf>⟧.state before) (⟦<SureShelf as Shelf>⟧.state now) text → ⊥ }
    ensures writes { (command : CommandOf) (before now : SureShelf) (sink sink_now : SureSink) →
        IsUnwritten command (⟦<SureShelf as Shelf>⟧.state before) (⟦<SureShelf as Shelf>⟧.state now)
        (⟦<SureSink as Sink>⟧.state sink) (⟦<SureSink as Sink>⟧.state sink_now) → ⊥ }
{}
