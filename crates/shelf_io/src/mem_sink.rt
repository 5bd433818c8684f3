ghost use Rattle.std.specs.Prelude.{◌≡◌, ℕ, ◌/◌, [], length, take, Some, OnOk, OnErr, IsErr, IsErrOf};
ghost use Rattle.shelf_io.specs.Faults.{HasPutCause};
ghost use Rattle.shelf_io.specs.States.{new_sink};
ghost use Rattle.shelf_io.specs.Written.{with_written};

use crate::failing_calls::FailingCalls;
use crate::sink::Sink;
use crate::write_answer::WriteAnswer;
use std::alloc::Global;

/// A stream in memory, whose calls fail where they are told to.
#[derive(Drop)]
pub struct MemSink {
    bytes: Vec<u8>,
    calls: FailingCalls,
    faults: u64,
}

impl Sink for MemSink {
    ghost use Rattle.shelf_io.specs.FailingCalls.{IsNextFailing, CountsCall};
    ghost use Rattle.shelf_io.specs.MemSink.{sink_calls, sink_state};

    ghost state = { sink_state };

    fn put(&mut self, piece: &[u8]) -> Result<(), WriteAnswer>
        ensures added { OnOk result ((sink_state self.new).written ≡ with_written (sink_state self.old).written piece.now) }
        ensures refused { OnErr result ((n : ℕ)
            × ((sink_state self.new).written ≡ with_written (sink_state self.old).written (take n piece.now))) }
        ensures cause { HasPutCause result (sink_state self.old) (sink_state self.new) }

        // It fails where it is told to, and then adds the first half of the piece.
        ensures told { OnOk result (¬ (IsNextFailing (sink_calls self.old))) }
        ensures failed { IsErrOf result WriteAnswer.Failed → IsNextFailing (sink_calls self.old) }
        ensures half { IsErrOf result WriteAnswer.Failed → (sink_state self.new).written
            ≡ with_written (sink_state self.old).written (take (length piece.now / 2) piece.now) }
        ensures counts { CountsCall (sink_calls self.old) (sink_calls self.new) }
    {
        if self.calls.next_fails() {
            return self.put_half(piece);
        }
        match self.bytes.extend_from_slice(piece) {
            Ok(()) => Ok(()),
            Err(_) => Err(WriteAnswer::NoMemory),
        }
    }
}

impl MemSink {
    ghost use Rattle.shelf_io.specs.FailingCalls.{AwaitsCalls};
    ghost use Rattle.shelf_io.specs.MemSink.{sink_calls, sink_state};

    /// Nothing was put to it. The calls with the numbers in `failing`, counted from 1, are to fail.
    pub fn new(alloc: Global, failing: Vec<u64>) -> MemSink
        ensures state { ⟦<MemSink as Sink>⟧.state result ≡ new_sink (Some []) }
        ensures calls { AwaitsCalls failing.items (sink_calls result) }
    {
        MemSink {
            bytes: Vec::new(alloc),
            calls: FailingCalls::new(failing),
            faults: 0,
        }
    }

    /// All that was put to it.
    pub fn bytes(&self) -> &[u8]
        ensures { (⟦<MemSink as Sink>⟧.state self.now).written ≡ Some result.now }
    {
        self.bytes.as_slice()
    }

    /// Adds the first half of the piece, and fails.
    fn put_half(&mut self, piece: &[u8]) -> Result<(), WriteAnswer>
        ensures fails { IsErr result }
        ensures half { IsErrOf result WriteAnswer.Failed → (sink_state self.new).written
            ≡ with_written (sink_state self.old).written (take (length piece.now / 2) piece.now) }
        ensures refused { OnErr result ((n : ℕ)
            × ((sink_state self.new).written ≡ with_written (sink_state self.old).written (take n piece.now))) }
        ensures cause { HasPutCause result (sink_state self.old) (sink_state self.new) }
        ensures calls { sink_calls self.new ≡ sink_calls self.old }
    {
        let half = &piece[..piece.len() / 2];
        match self.bytes.extend_from_slice(half) {
            Ok(()) => {
                self.faults = self.faults.saturating_add(1);
                Err(WriteAnswer::Failed)
            }
            Err(_) => Err(WriteAnswer::NoMemory),
        }
    }
}
