ghost use Rattle.std.specs.Prelude.{◌≡◌, ℕ, ◌^◌, ◌≤◌, ◌<◌, ◌⊎◌, List, [], ◌++◌, ◌↔◌, length, take, Some, None, IfOk, OnOk, OnErr, IsErrOf};
ghost use Rattle.std.specs.Option.{ForSome};
ghost use Rattle.shelf_io.specs.Files.{Files, IsHeld, bytes_of, part_from, with_bytes, with_piece};
ghost use Rattle.shelf_io.specs.Faults.{HasPartCause, HasReadCause, HasWriteCause};
ghost use Rattle.shelf_io.specs.States.{ShelfState};

use crate::part_answer::PartAnswer;
use crate::read_answer::ReadAnswer;
use crate::write_answer::WriteAnswer;

/// Named files, read whole or in parts, and written from their start, one at a time.
pub trait Shelf {
    /// What contracts see of it at one moment.
    ghost state: { Self → ShelfState };

    /// Appends the bytes of the file to `into`. A file of more than `limit` bytes is `TooLong`.
    fn read_whole(&mut self, name: &str, limit: u64, into: &mut Vec<u8>) -> Result<(), ReadAnswer>
        requires { limit ≤ 2 ^ 28 }
        ensures appends { OnOk result ((bytes : List ℕ) × (length bytes ≤ limit)
            × (into.new.items ≡ into.old.items ++ bytes)) }
        ensures bytes { OnOk result (ForSome (state self.old).held
            (λ files. into.new.items ≡ into.old.items ++ bytes_of files name.now)) }
        ensures fits { OnOk result (ForSome (state self.old).held
            (λ files. length (bytes_of files name.now) ≤ limit)) }
        ensures too_long { IsErrOf result ReadAnswer.TooLong → ForSome (state self.old).held
            (λ files. limit < length (bytes_of files name.now)) }
        ensures unread { OnErr result (into.new.items ≡ into.old.items) }
        ensures held { (state self.new).held ≡ (state self.old).held }
        ensures started { (state self.new).started ≡ (state self.old).started }
        ensures cause { HasReadCause result name.now (state self.old) (state self.new) };

    /// Appends the bytes of the file from `at` on to `into`, as many as there are up to `limit`, and
    /// answers how many: 0 where the file ends at `at` or before.
    fn read_part(
        &mut self,
        name: &str,
        at: u64,
        limit: u64,
        into: &mut Vec<u8>,
    ) -> Result<u64, PartAnswer>
        requires some { 1 ≤ limit }
        requires few { limit ≤ 65536 }
        requires near { at ≤ 2 ^ 32 }
        ensures appends { IfOk result (λ count. (bytes : List ℕ) × (length bytes ≡ count) × (count ≤ limit)
            × (into.new.items ≡ into.old.items ++ bytes)) }
        ensures bytes { OnOk result (ForSome (state self.old).held
            (λ files. into.new.items ≡ into.old.items ++ part_from at limit (bytes_of files name.now))) }
        ensures ends { IfOk result (λ count. ForSome (state self.old).held
            (λ files. count ≡ 0 ↔ length (bytes_of files name.now) ≤ at)) }
        ensures unread { OnErr result (into.new.items ≡ into.old.items) }
        ensures held { (state self.new).held ≡ (state self.old).held }
        ensures started { (state self.new).started ≡ (state self.old).started }
        ensures cause { HasPartCause result name.now (state self.old) (state self.new) };

    /// Makes the name hold no bytes, ready to be appended to. After a refusal no name is.
    fn start(&mut self, name: &str) -> Result<(), WriteAnswer>
        ensures empty { OnOk result ((state self.new).held ≡ with_bytes (state self.old).held name.now []) }

        // The name holds what it held, or no bytes.
        ensures refused { OnErr result (((state self.new).held ≡ (state self.old).held)
            ⊎ ((state self.new).held ≡ with_bytes (state self.old).held name.now [])) }
        ensures started { OnOk result ((state self.new).started ≡ Some name.now) }
        ensures stopped { OnErr result ((state self.new).started ≡ None) }
        ensures cause { HasWriteCause result name.now (state self.old) (state self.new) };

    /// Adds the piece at the end of the started name. After a refusal no name is started.
    fn append(&mut self, name: &str, piece: &[u8]) -> Result<(), WriteAnswer>
        requires { (state self.old).started ≡ Some name.now }
        ensures added { OnOk result ((state self.new).held ≡ with_piece (state self.old).held name.now piece.now) }

        // A prefix of the piece was added.
        ensures refused { OnErr result ((n : ℕ)
            × ((state self.new).held ≡ with_piece (state self.old).held name.now (take n piece.now))) }
        ensures started { OnOk result ((state self.new).started ≡ (state self.old).started) }
        ensures stopped { OnErr result ((state self.new).started ≡ None) }
        ensures cause { HasWriteCause result name.now (state self.old) (state self.new) };

    /// A started name is held, where the shelf tells what it holds.
    ghost started_is_held: { (shelf : Self) (files : Files) (name : List ℕ) →
        (state shelf).held ≡ Some files → (state shelf).started ≡ Some name → IsHeld files name };
}
