ghost use Rattle.std.specs.Prelude.{◌≡◌, ◌<◌, ◌≤◌, [], ◌∷◌, ◌++◌, ◌↔◌, ℕ, List, length, Some, None, IfOk, OnOk, OnErr, IsErrOf};
ghost use Rattle.std.specs.Option.{option_copied};
ghost use Rattle.std.specs.FinMap.{empty, get};
ghost use Rattle.shelf_io.specs.Files.{bytes_of, part_from, with_bytes, with_piece};
ghost use Rattle.shelf_io.specs.Stored.{files_of, started_of};

use crate::part_answer::PartAnswer;
use crate::read_answer::ReadAnswer;
use crate::stored_file::StoredFile;
use geo_base::NoMemory;
use std::alloc::Global;

/// Files in memory, the newest first: a name holds what the first file with it holds. The first one may be
/// the one that is being written.
#[derive(Drop)]
pub(crate) struct StoredFiles {
    files: Vec<StoredFile>,
    is_started: bool,
}

impl StoredFiles {
    pub(crate) fn new(alloc: Global) -> StoredFiles
        ensures files { files_of result.files.items ≡ empty }
        ensures started { started_of result.files.items result.is_started ≡ None }
    {
        StoredFiles {
            files: Vec::new(alloc),
            is_started: false,
        }
    }

    pub(crate) fn file(&self, name: &str) -> Option<&[u8]>
        ensures { option_copied result ≡ get (files_of self.now.files.items) name.now }
    {
        for file in &self.files {
            if file.is_named(name) {
                return Some(file.content());
            }
        }
        None
    }

    pub(crate) fn alloc(&self) -> Global {
        *self.files.allocator()
    }

    /// No name is started from here on.
    pub(crate) fn stop(&mut self)
        ensures files { self.new.files.items ≡ self.old.files.items }
        ensures stopped { started_of self.new.files.items self.new.is_started ≡ None }
    {
        self.is_started = false;
    }

    /// Appends the file's bytes to `into`, nothing where there is no such file.
    pub(crate) fn read(&self, name: &str, limit: u64, into: &mut Vec<u8>) -> Result<(), ReadAnswer>
        ensures bytes { OnOk result (into.new.items ≡ into.old.items ++ bytes_of (files_of self.now.files.items) name.now) }
        ensures fits { OnOk result (length (bytes_of (files_of self.now.files.items) name.now) ≤ limit) }
        ensures too_long { IsErrOf result ReadAnswer.TooLong → limit < length (bytes_of (files_of self.now.files.items) name.now) }
        ensures sure { IsErrOf result ReadAnswer.Failed → ⊥ }
        ensures unread { OnErr result (into.new.items ≡ into.old.items) }
    {
        let bytes = self.bytes(name);
        if bytes.len() as u64 > limit {
            return Err(ReadAnswer::TooLong);
        }
        match into.extend_from_slice(bytes) {
            Ok(()) => Ok(()),
            Err(_) => Err(ReadAnswer::NoMemory),
        }
    }

    /// Appends the part of the file's bytes from `at` on, and answers how many they are: none where there
    /// is no such file.
    pub(crate) fn read_part(
        &self,
        name: &str,
        at: u64,
        limit: u64,
        into: &mut Vec<u8>,
    ) -> Result<u64, PartAnswer>
        requires { 1 ≤ limit }
        ensures appends { IfOk result (λ count. (bytes : List ℕ) × (length bytes ≡ count) × (count ≤ limit)
            × (into.new.items ≡ into.old.items ++ bytes)) }
        ensures bytes { OnOk result (into.new.items
            ≡ into.old.items ++ part_from at limit (bytes_of (files_of self.now.files.items) name.now)) }
        ensures ends { IfOk result (λ count. count ≡ 0
            ↔ length (bytes_of (files_of self.now.files.items) name.now) ≤ at) }
        ensures sure { IsErrOf result PartAnswer.Failed → ⊥ }
        ensures unread { OnErr result (into.new.items ≡ into.old.items) }
    {
        let part = part_of(self.bytes(name), at, limit);
        match into.extend_from_slice(part) {
            Ok(()) => Ok(part.len() as u64),
            Err(_) => Err(PartAnswer::NoMemory),
        }
    }

    /// Makes the name hold no bytes and starts it. Where memory runs out, no name is started.
    pub(crate) fn start(&mut self, name: &str) -> Result<(), NoMemory>
        ensures empty { OnOk result (Some (files_of self.new.files.items)
            ≡ with_bytes (Some (files_of self.old.files.items)) name.now []) }
        ensures started { OnOk result (started_of self.new.files.items self.new.is_started ≡ Some name.now) }
        ensures refused { OnErr result (self.new.files.items ≡ self.old.files.items) }
        ensures stopped { OnErr result (started_of self.new.files.items self.new.is_started ≡ None) }
    {
        self.is_started = false;
        let content = Vec::new(self.alloc());
        self.store(name, content)?;
        self.is_started = true;
        Ok(())
    }

    /// Adds the piece at the end of the started name. Where memory runs out, no name is started.
    pub(crate) fn append(&mut self, name: &str, piece: &[u8]) -> Result<(), NoMemory>
        requires { started_of self.old.files.items self.old.is_started ≡ Some name.now }
        ensures added { OnOk result (Some (files_of self.new.files.items)
            ≡ with_piece (Some (files_of self.old.files.items)) name.now piece.now) }
        ensures started { OnOk result (started_of self.new.files.items self.new.is_started ≡ Some name.now) }
        ensures refused { OnErr result (self.new.files.items ≡ self.old.files.items) }
        ensures stopped { OnErr result (started_of self.new.files.items self.new.is_started ≡ None) }
    {
        let newest = &mut self.files[0];
        match newest.add(piece) {
            Ok(()) => Ok(()),
            Err(refused) => {
                self.is_started = false;
                Err(refused)
            }
        }
    }

    /// Makes the name hold these bytes, and no name started. Where memory runs out, all stays as it was.
    pub(crate) fn put(&mut self, name: &str, bytes: &[u8]) -> Result<(), NoMemory>
        ensures put { OnOk result (Some (files_of self.new.files.items)
            ≡ with_bytes (Some (files_of self.old.files.items)) name.now bytes.now) }
        ensures stopped { OnOk result (started_of self.new.files.items self.new.is_started ≡ None) }
        ensures refused { OnErr result ((self.new.files.items ≡ self.old.files.items)
            × (self.new.is_started ≡ self.old.is_started)) }
    {
        let content = Vec::from_slice(self.alloc(), bytes)?;
        self.store(name, content)?;
        self.is_started = false;
        Ok(())
    }

    /// The bytes of the file, none where there is no such file.
    fn bytes(&self, name: &str) -> &[u8]
        ensures { result.now ≡ bytes_of (files_of self.now.files.items) name.now }
    {
        match self.file(name) {
            Some(bytes) => bytes,
            None => &[],
        }
    }

    /// Makes the name hold these bytes, as the newest file.
    fn store(&mut self, name: &str, content: Vec<u8>) -> Result<(), NoMemory>
        ensures stored { OnOk result (self.new.files.items ≡ (name.now, content.items) ∷ self.old.files.items) }
        ensures refused { OnErr result (self.new.files.items ≡ self.old.files.items) }
        ensures started { self.new.is_started ≡ self.old.is_started }
    {
        let file = StoredFile::new(self.alloc(), name, content)?;
        self.files.insert(0, file)?;
        Ok(())
    }
}

// The bytes from `at` on, as many as there are up to the limit.
fn part_of(bytes: &[u8], at: u64, limit: u64) -> &[u8]
    ensures { result.now ≡ part_from at limit bytes.now }
{
    let length = bytes.len() as u64;
    let start = at.min(length);
    let end = start + limit.min(length - start);
    &bytes[start as usize..end as usize]
}
