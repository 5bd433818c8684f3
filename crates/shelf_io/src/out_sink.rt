ghost use Rattle.std.specs.Prelude.{◌≡◌, None};
ghost use Rattle.shelf_io.specs.States.{new_sink};

use crate::sink::Sink;
use crate::transfer::write_whole;
use crate::write_answer::WriteAnswer;
use std::io;

/// The standard output. It doesn't tell what was written.
#[derive(Drop)]
pub struct OutSink<'r, R: Print> {
    rt: &'r R,
    faults: u64,
}

impl<'r, R: Print> Sink for OutSink<'r, R> {
    ghost state = { λ sink. record { written = None; faults = sink.faults } };

    fn put(&mut self, piece: &[u8]) -> Result<(), WriteAnswer> {
        if write_whole(&mut io::writer(self.rt), piece) {
            return Ok(());
        }
        self.faults = self.faults.saturating_add(1);
        Err(WriteAnswer::Failed)
    }
}

impl<'r, R: Print> OutSink<'r, R> {
    /// Nothing failed yet.
    pub fn new(rt: &'r R) -> OutSink<'r, R>
        ensures { ⟦<OutSink<'r, R> as Sink>⟧.state result ≡ new_sink None }
    {
        OutSink { rt, faults: 0 }
    }
}
