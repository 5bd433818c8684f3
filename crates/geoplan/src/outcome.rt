ghost use Rattle.std.specs.Prelude.{◌≡◌, [], MatchResult};
ghost use Rattle.geoplan.specs.Reporting.{Ends, HasNoText};

use crate::status::Status;
use geo_base::NoMemory;
use std::alloc::Global;

/// A status, and the text that is to be printed with it.
#[derive(Drop)]
pub struct Outcome {
    pub status: Status,
    pub text: Vec<u8>,
}

impl Outcome {
    /// A status with its text.
    pub fn of(status: Status, text: Vec<u8>) -> Outcome
        ensures status { result.status ≡ status }
        ensures text { result.text.items ≡ text.items }
    {
        Outcome { status, text }
    }

    /// A status with nothing to be printed.
    pub fn silent(alloc: Global, status: Status) -> Outcome
        ensures status { result.status ≡ status }
        ensures text { result.text.items ≡ [] }
    {
        Outcome {
            status,
            text: Vec::new(alloc),
        }
    }

    /// A status with its text, or that memory ran out before there was one.
    pub fn made(alloc: Global, status: Status, text: Result<Vec<u8>, NoMemory>) -> Outcome
        ensures { MatchResult text (λ words. Ends status words.items result.status result.text.items)
            (λ _. HasNoText result.status result.text.items) }
    {
        match text {
            Ok(text) => Outcome::of(status, text),
            Err(NoMemory) => Outcome::silent(alloc, Status::NoMemory),
        }
    }
}
