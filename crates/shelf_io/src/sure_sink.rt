ghost use Rattle.std.specs.Prelude.{◌≡◌, [], Some};
ghost use Rattle.shelf_io.specs.States.{new_sink};

use crate::sink::Sink;
use crate::write_answer::WriteAnswer;
use std::alloc::Global;

/// A stream in memory, of which no call fails but for want of memory.
#[derive(Drop)]
pub struct SureSink {
    bytes: Vec<u8>,
}

impl Sink for SureSink {
    ghost state = { λ sink. record { written = Some sink.bytes.items; faults = 0 } };

    fn put(&mut self, piece: &[u8]) -> Result<(), WriteAnswer> {
        match self.bytes.extend_from_slice(piece) {
            Ok(()) => Ok(()),
            Err(_) => Err(WriteAnswer::NoMemory),
        }
    }
}

impl SureSink {
    /// Nothing was put to it.
    pub fn new(alloc: Global) -> SureSink
        ensures { ⟦<SureSink as Sink>⟧.state result ≡ new_sink (Some []) }
    {
        SureSink {
            bytes: Vec::new(alloc),
        }
    }

    /// All that was put to it.
    pub fn bytes(&self) -> &[u8]
        ensures { (⟦<SureSink as Sink>⟧.state self.now).written ≡ Some result.now }
    {
        self.bytes.as_slice()
    }
}
