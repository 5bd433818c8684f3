//! The top call.
ghost use Rattle.std.specs.Prelude.{◌≡◌, ◌⊎◌, [], Some, None, is_some};
ghost use Rattle.std.specs.Option.{ForSome};
ghost use Rattle.shelf_io.specs.Faults.{Rose};
ghost use Rattle.geoplan.specs.CommandOf.{CommandOf, command_of, files_read, written_by, OnCommand};
ghost use Rattle.geoplan.specs.Ends.{Completes, EndsWithNone, EndsOpen, EndsAtLog, EndsAtCuts};
ghost use Rattle.geoplan.specs.Input.{input_of};
ghost use Rattle.geoplan.specs.Outcomes.{RefusesWords, RefusesTable, RefusesLength, FailsToRead};
ghost use Rattle.geoplan.specs.Printing.{PrintsAll, HasPrinted};
ghost use Rattle.geoplan.specs.Promises.{WhereHeld, IsStatus, IsUnwritten, RanOut, OthersStay, IsComplete, IsRefusedBy};

use crate::run::run;
use crate::words::Words;
use shelf_io::{Shelf, Sink};
use std::alloc::Global;

/// Does all that the program does: reads the words of a command line, the program's name first,
/// reads the files that they name from `shelf`, writes a log or the tables of a seed to it, prints to
/// `out`, and answers the exit status.
pub fn geoplan<H: Shelf, O: Sink>(alloc: Global, words: &Words, shelf: &mut H, out: &mut O) -> u8
    ensures status { IsStatus result }

    // 0: the command is done, and its text was printed. Of `plan`: the printed plan meets every limit
    // for all whole-number displacements, and every plan that meets them costs at least as much, which
    // the log proves. Of `check`: the text under the log's name is a log of the network, and every plan
    // that meets the limits costs at least its bound. Of `rows`: unknowns and rows. Of `trial`: the
    // answers to the script. Of `gen`: both tables of the seed stand under their names. Of `bench`: the
    // printed price is that of a certified plan of the seed's network, and no plan that meets its
    // limits costs less. Of `migrate`: under the new log's name stands a log of format 2 with the tree
    // of the log that was read, so with the same bound and counts.
    ensures done { result ≡ 0 → OnCommand words.now (λ command. PrintsAll
        (Completes command (H.state shelf.old) (H.state shelf.new)) (O.state out.old) (O.state out.new)) }

    // 1: no plan meets the limits, which the log proves.
    ensures none { result ≡ 1 → OnCommand words.now (λ command. PrintsAll
        (EndsWithNone command (H.state shelf.old) (H.state shelf.new)) (O.state out.old) (O.state out.new)) }

    // 2: exactly where the words aren't accepted, but for want of memory.
    ensures words { result ≡ 2 → HasPrinted
        (RefusesWords words.now (H.state shelf.old) (H.state shelf.new)) (O.state out.old) (O.state out.new) }
    ensures refused { command_of words.now ≡ None → (result ≡ 2) ⊎ (result ≡ 7) }

    // 3: the shown fault is the first one of the tables in the order of reading, or of their network
    // where no table has one.
    ensures refused_table { result ≡ 3 → OnCommand words.now (λ command. HasPrinted
        (RefusesTable command (H.state shelf.old) (H.state shelf.new)) (O.state out.old) (O.state out.new)) }

    // 4: the printed plan costs no more than any that meets the limits, which the log proves. It is
    // not decided: the interval of the printed limit contains 0. Of `bench`: the same of the plan that
    // has the printed price.
    ensures undecided { result ≡ 4 → OnCommand words.now (λ command. PrintsAll
        (EndsOpen command (H.state shelf.old) (H.state shelf.new)) (O.state out.old) (O.state out.new)) }

    // 5: a read of a file of the command failed in this call, and no file before it is too long.
    ensures unread { result ≡ 5 → OnCommand words.now (λ command. HasPrinted
        (FailsToRead (files_read command) (H.state shelf.old) (H.state shelf.new))
        (O.state out.old) (O.state out.new)) }

    // 6: a write of a file of the command failed in this call, or the put of a report did.
    ensures unwritten { result ≡ 6 → OnCommand words.now (λ command. IsUnwritten command
        (H.state shelf.old) (H.state shelf.new) (O.state out.old) (O.state out.new)) }

    // 7: memory ran out, for which no cause is said. No write failed and no put: the shelf counted no
    // fault, or its latest is a failed read of a file of the command.
    ensures out_of_memory { result ≡ 7 → RanOut words.now
        (H.state shelf.old) (H.state shelf.new) (O.state out.old) (O.state out.new) }

    // 8: the shown fault is the first one of the text under the log's name.
    ensures log_refused { result ≡ 8 → OnCommand words.now (λ command. HasPrinted
        (EndsAtLog command (H.state shelf.old) (H.state shelf.new)) (O.state out.old) (O.state out.new)) }

    // 9: the shown file is the first one, in the order of reading, that is too long.
    ensures too_long { result ≡ 9 → OnCommand words.now (λ command. HasPrinted
        (RefusesLength command (H.state shelf.old) (H.state shelf.new)) (O.state out.old) (O.state out.new)) }

    // 15: the text under the log's name is a log of the network that uses more cuts than a log of
    // format 2 can name.
    ensures cuts_refused { result ≡ 15 → OnCommand words.now (λ command. HasPrinted
        (EndsAtCuts command (H.state shelf.old) (H.state shelf.new)) (O.state out.old) (O.state out.new)) }

    // Accepted words and no fault counted: the status is what the files give, or want of memory.
    ensures complete { (command : CommandOf) → command_of words.now ≡ Some command →
        (Rose (H.state shelf.old).faults (H.state shelf.new).faults → ⊥) →
        (Rose (O.state out.old).faults (O.state out.new).faults → ⊥) →
        ForSome (H.state shelf.old).held (λ files. IsComplete command files result) }

    // Whatever faults were counted: a file that is too long or a table with a fault is refused, but
    // for a failed read and want of memory.
    ensures refusals { (command : CommandOf) → command_of words.now ≡ Some command →
        ForSome (H.state shelf.old).held (λ files. IsRefusedBy (input_of command files) result) }

    // Every name but those that the command may write holds what it held. A command that writes none,
    // and words that aren't accepted, change nothing.
    ensures others { WhereHeld (H.state shelf.old).held (H.state shelf.new).held (OthersStay words.now) }
    ensures untouched { written_by words.now ≡ [] → (H.state shelf.new).held ≡ (H.state shelf.old).held }

    // Whether the bytes are told doesn't change.
    ensures shelf_told { is_some (H.state shelf.new).held ≡ is_some (H.state shelf.old).held }
    ensures out_told { is_some (O.state out.new).written ≡ is_some (O.state out.old).written }
{
    run(alloc, words, shelf, out).code()
}
