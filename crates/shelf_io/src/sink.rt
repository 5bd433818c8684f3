ghost use Rattle.std.specs.Prelude.{◌≡◌, ℕ, take, OnOk, OnErr};
ghost use Rattle.shelf_io.specs.Faults.{HasPutCause};
ghost use Rattle.shelf_io.specs.States.{SinkState};
ghost use Rattle.shelf_io.specs.Written.{with_written};

use crate::write_answer::WriteAnswer;

/// A stream of bytes to write to.
pub trait Sink {
    /// What contracts see of it at one moment.
    ghost state: { Self → SinkState };

    /// Adds the piece at the end.
    fn put(&mut self, piece: &[u8]) -> Result<(), WriteAnswer>
        ensures added { OnOk result ((state self.new).written ≡ with_written (state self.old).written piece.now) }

        // A prefix of the piece was added.
        ensures refused { OnErr result ((n : ℕ)
            × ((state self.new).written ≡ with_written (state self.old).written (take n piece.now))) }
        ensures cause { HasPutCause result (state self.old) (state self.new) };
}
