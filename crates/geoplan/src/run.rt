//! A run of the program over any shelf and sink.
ghost use Rattle.std.specs.Prelude.{◌≡◌};
ghost use Rattle.geoplan.specs.Running.{Prints, IsWordsRefusal, IsRun};

use crate::answer::answer;
use crate::command::Command;
use crate::outcome::Outcome;
use crate::refusal_text::words_refusal;
use crate::status::Status;
use crate::words::Words;
use shelf_io::{Shelf, Sink, WriteAnswer};
use std::alloc::Global;

/// Prints the text of an outcome in one piece, if it has one, and answers the status to end with.
fn print<O: Sink>(out: &mut O, outcome: Outcome) -> Status
    ensures { Prints outcome.status outcome.text.items result (O.state out.old) (O.state out.new) }
{
    if outcome.text.as_slice().is_empty() {
        return outcome.status;
    }
    match out.put(outcome.text.as_slice()) {
        Ok(()) => outcome.status,
        Err(WriteAnswer::Failed) => outcome.status.after_failed_put(),
        Err(WriteAnswer::NoMemory) => Status::NoMemory,
    }
}

/// The outcome where the words aren't accepted.
fn refuse_words(alloc: Global) -> Outcome
    ensures { IsWordsRefusal result.status result.text.items }
{
    Outcome::made(alloc, Status::WordsRefused, words_refusal(alloc))
}

/// Runs a command line, and answers the status to end with.
pub fn run<H: Shelf, O: Sink>(alloc: Global, words: &Words, shelf: &mut H, out: &mut O) -> Status
    ensures { IsRun words.now result (H.state shelf.old) (H.state shelf.new) (O.state out.old) (O.state out.new) }
{
    let outcome = match Command::of(words) {
        Some(command) => answer(alloc, &command, shelf),
        None => refuse_words(alloc),
    };
    print(out, outcome)
}
