ghost use Rattle.std.specs.Prelude.{◌≡◌, ◌⊎◌, ◌/◌, ℕ, ◌^◌, ◌≤◌, ◌<◌, List, [], ◌++◌, ◌↔◌, length, take, Some, None, IfOk, OnOk, OnErr, IsErr, IsErrOf};
ghost use Rattle.std.specs.Option.{ForSome, option_copied};
ghost use Rattle.std.specs.FinMap.{empty, get};
ghost use Rattle.shelf_io.specs.Files.{IsHeld, bytes_of, part_from, with_bytes, with_piece};
ghost use Rattle.shelf_io.specs.Faults.{KeepsFaults, HasPartCause, HasReadCause, HasWriteCause};
ghost use Rattle.shelf_io.specs.States.{new_shelf};

use crate::access::Access;
use crate::failing_calls::FailingCalls;
use crate::faults::Faults;
use crate::part_answer::PartAnswer;
use crate::read_answer::ReadAnswer;
use crate::shelf::Shelf;
use crate::stored_files::StoredFiles;
use crate::write_answer::WriteAnswer;
use geo_base::NoMemory;
use std::alloc::Global;

/// Files in memory, whose calls fail where they are told to. Reading a name that isn't held fails too.
#[derive(Drop)]
pub struct MemShelf {
    stored: StoredFiles,
    calls: FailingCalls,
    faults: Faults,
}

impl Shelf for MemShelf {
    ghost use Rattle.shelf_io.specs.FailingCalls.{IsNextFailing, CountsCall};
    ghost use Rattle.shelf_io.specs.MemShelf.{shelf_calls, shelf_state};
    ghost use Rattle.shelf_io.specs.Stored.{started_of-held};

    ghost state = { shelf_state };

    ghost started_is_held = { λ shelf. started_of-held shelf.stored.files.items shelf.stored.is_started };

    fn read_whole(&mut self, name: &str, limit: u64, into: &mut Vec<u8>) -> Result<(), ReadAnswer>
        requires { limit ≤ 2 ^ 28 }
        ensures appends { OnOk result ((bytes : List ℕ) × (length bytes ≤ limit)
            × (into.new.items ≡ into.old.items ++ bytes)) }
        ensures bytes { OnOk result (ForSome (shelf_state self.old).held
            (λ files. into.new.items ≡ into.old.items ++ bytes_of files name.now)) }
        ensures fits { OnOk result (ForSome (shelf_state self.old).held
            (λ files. length (bytes_of files name.now) ≤ limit)) }
        ensures too_long { IsErrOf result ReadAnswer.TooLong → ForSome (shelf_state self.old).held
            (λ files. limit < length (bytes_of files name.now)) }
        ensures unread { OnErr result (into.new.items ≡ into.old.items) }
        ensures held { (shelf_state self.new).held ≡ (shelf_state self.old).held }
        ensures started { (shelf_state self.new).started ≡ (shelf_state self.old).started }
        ensures cause { HasReadCause result name.now (shelf_state self.old) (shelf_state self.new) }

        // It fails where it is told to, whatever the file's length, and where the name isn't held.
        ensures told { OnOk result (¬ (IsNextFailing (shelf_calls self.old))) }
        ensures told_first { IsErrOf result ReadAnswer.TooLong → ¬ (IsNextFailing (shelf_calls self.old)) }
        ensures found { OnOk result (ForSome (shelf_state self.old).held (λ files. IsHeld files name.now)) }
        ensures failed { IsErrOf result ReadAnswer.Failed → ForSome (shelf_state self.old).held
            (λ files. IsNextFailing (shelf_calls self.old) ⊎ (get files name.now ≡ None)) }
        ensures counts { CountsCall (shelf_calls self.old) (shelf_calls self.new) }
    {
        let fails = self.calls.next_fails();
        if fails || self.stored.file(name).is_none() {
            let name = String::from_str(self.stored.alloc(), name)?;
            self.faults.add(Access::Read, name);
            return Err(ReadAnswer::Failed);
        }
        self.stored.read(name, limit, into)
    }

    fn read_part(
        &mut self,
        name: &str,
        at: u64,
        limit: u64,
        into: &mut Vec<u8>,
    ) -> Result<u64, PartAnswer>
        requires some { 1 ≤ limit }
        requires few { limit ≤ 65536 }
        requires near { at ≤ 2 ^ 32 }
        ensures appends { IfOk result (λ count. (bytes : List ℕ) × (length bytes ≡ count) × (count ≤ limit)
            × (into.new.items ≡ into.old.items ++ bytes)) }
        ensures bytes { OnOk result (ForSome (shelf_state self.old).held
            (λ files. into.new.items ≡ into.old.items ++ part_from at limit (bytes_of files name.now))) }
        ensures ends { IfOk result (λ count. ForSome (shelf_state self.old).held
            (λ files. count ≡ 0 ↔ length (bytes_of files name.now) ≤ at)) }
        ensures unread { OnErr result (into.new.items ≡ into.old.items) }
        ensures held { (shelf_state self.new).held ≡ (shelf_state self.old).held }
        ensures started { (shelf_state self.new).started ≡ (shelf_state self.old).started }
        ensures cause { HasPartCause result name.now (shelf_state self.old) (shelf_state self.new) }

        // It fails where it is told to, and where the name isn't held, and then reads nothing.
        ensures told { OnOk result (¬ (IsNextFailing (shelf_calls self.old))) }
        ensures found { OnOk result (ForSome (shelf_state self.old).held (λ files. IsHeld files name.now)) }
        ensures failed { IsErrOf result PartAnswer.Failed → ForSome (shelf_state self.old).held
            (λ files. IsNextFailing (shelf_calls self.old) ⊎ (get files name.now ≡ None)) }
        ensures counts { CountsCall (shelf_calls self.old) (shelf_calls self.new) }
    {
        let fails = self.calls.next_fails();
        if fails || self.stored.file(name).is_none() {
            let name = String::from_str(self.stored.alloc(), name)?;
            self.faults.add(Access::Read, name);
            return Err(PartAnswer::Failed);
        }
        self.stored.read_part(name, at, limit, into)
    }

    fn start(&mut self, name: &str) -> Result<(), WriteAnswer>
        ensures empty { OnOk result ((shelf_state self.new).held ≡ with_bytes (shelf_state self.old).held name.now []) }
        ensures refused { OnErr result (((shelf_state self.new).held ≡ (shelf_state self.old).held)
            ⊎ ((shelf_state self.new).held ≡ with_bytes (shelf_state self.old).held name.now [])) }
        ensures started { OnOk result ((shelf_state self.new).started ≡ Some name.now) }
        ensures stopped { OnErr result ((shelf_state self.new).started ≡ None) }
        ensures cause { HasWriteCause result name.now (shelf_state self.old) (shelf_state self.new) }

        // It fails where it is told to, and then does nothing else.
        ensures told { OnOk result (¬ (IsNextFailing (shelf_calls self.old))) }
        ensures failed { IsErrOf result WriteAnswer.Failed → IsNextFailing (shelf_calls self.old) }
        ensures nothing_else { OnErr result ((shelf_state self.new).held ≡ (shelf_state self.old).held) }
        ensures counts { CountsCall (shelf_calls self.old) (shelf_calls self.new) }
    {
        if self.calls.next_fails() {
            self.stored.stop();
            let name = String::from_str(self.stored.alloc(), name)?;
            self.faults.add(Access::Write, name);
            return Err(WriteAnswer::Failed);
        }
        self.stored.start(name)?;
        Ok(())
    }

    fn append(&mut self, name: &str, piece: &[u8]) -> Result<(), WriteAnswer>
        requires { (shelf_state self.old).started ≡ Some name.now }
        ensures added { OnOk result ((shelf_state self.new).held ≡ with_piece (shelf_state self.old).held name.now piece.now) }
        ensures refused { OnErr result ((n : ℕ)
            × ((shelf_state self.new).held ≡ with_piece (shelf_state self.old).held name.now (take n piece.now))) }
        ensures started { OnOk result ((shelf_state self.new).started ≡ (shelf_state self.old).started) }
        ensures stopped { OnErr result ((shelf_state self.new).started ≡ None) }
        ensures cause { HasWriteCause result name.now (shelf_state self.old) (shelf_state self.new) }

        // It fails where it is told to, and then adds the first half of the piece.
        ensures told { OnOk result (¬ (IsNextFailing (shelf_calls self.old))) }
        ensures failed { IsErrOf result WriteAnswer.Failed → IsNextFailing (shelf_calls self.old) }
        ensures half { IsErrOf result WriteAnswer.Failed → (shelf_state self.new).held
            ≡ with_piece (shelf_state self.old).held name.now (take (length piece.now / 2) piece.now) }
        ensures counts { CountsCall (shelf_calls self.old) (shelf_calls self.new) }
    {
        if self.calls.next_fails() {
            return self.append_half(name, piece);
        }
        match self.stored.append(name, piece) {
            Ok(()) => Ok(()),
            Err(refused) => Err(WriteAnswer::from(refused)),
        }
    }
}

impl MemShelf {
    ghost use Rattle.shelf_io.specs.FailingCalls.{AwaitsCalls};
    ghost use Rattle.shelf_io.specs.MemShelf.{shelf_calls, shelf_state};

    /// Holds no file. The calls with the numbers in `failing`, counted from 1 over all calls of the trait, are
    /// to fail.
    pub fn new(alloc: Global, failing: Vec<u64>) -> MemShelf
        ensures state { ⟦<MemShelf as Shelf>⟧.state result ≡ new_shelf (Some empty) }
        ensures calls { AwaitsCalls failing.items (shelf_calls result) }
    {
        MemShelf {
            stored: StoredFiles::new(alloc),
            calls: FailingCalls::new(failing),
            faults: Faults::none(),
        }
    }

    /// Makes the name hold these bytes, and no name started. Where memory runs out, the shelf stays as it was.
    pub fn put_file(&mut self, name: &str, bytes: &[u8]) -> Result<(), NoMemory>
        ensures put { OnOk result ((⟦<MemShelf as Shelf>⟧.state self.new).held
            ≡ with_bytes (⟦<MemShelf as Shelf>⟧.state self.old).held name.now bytes.now) }
        ensures stopped { OnOk result ((⟦<MemShelf as Shelf>⟧.state self.new).started ≡ None) }
        ensures refused { OnErr result (⟦<MemShelf as Shelf>⟧.state self.new ≡ ⟦<MemShelf as Shelf>⟧.state self.old) }
        ensures faults { KeepsFaults (⟦<MemShelf as Shelf>⟧.state self.old) (⟦<MemShelf as Shelf>⟧.state self.new) }
        ensures calls { shelf_calls self.new ≡ shelf_calls self.old }
    {
        self.stored.put(name, bytes)
    }

    /// The bytes of the file, `None` where the name isn't held.
    pub fn file(&self, name: &str) -> Option<&[u8]>
        ensures { ForSome (⟦<MemShelf as Shelf>⟧.state self.now).held
            (λ files. option_copied result ≡ get files name.now) }
    {
        self.stored.file(name)
    }

    /// Adds the first half of the piece to the started name, and fails.
    fn append_half(&mut self, name: &str, piece: &[u8]) -> Result<(), WriteAnswer>
        requires { (shelf_state self.old).started ≡ Some name.now }
        ensures fails { IsErr result }
        ensures half { IsErrOf result WriteAnswer.Failed → (shelf_state self.new).held
            ≡ with_piece (shelf_state self.old).held name.now (take (length piece.now / 2) piece.now) }
        ensures refused { OnErr result ((n : ℕ) × ((shelf_state self.new).held
            ≡ with_piece (shelf_state self.old).held name.now (take n piece.now))) }
        ensures stopped { (shelf_state self.new).started ≡ None }
        ensures cause { HasWriteCause result name.now (shelf_state self.old) (shelf_state self.new) }
        ensures calls { shelf_calls self.new ≡ shelf_calls self.old }
    {
        let half = &piece[..piece.len() / 2];
        match self.stored.append(name, half) {
            Ok(()) => {}
            Err(refused) => return Err(WriteAnswer::from(refused)),
        }
        self.stored.stop();
        let name = String::from_str(self.stored.alloc(), name)?;
        self.faults.add(Access::Write, name);
        Err(WriteAnswer::Failed)
    }
}
