ghost use Rattle.std.specs.Prelude.{◌≡◌, Some, None, OnOk, OnErr};
ghost use Rattle.std.specs.Option.{ForSome, option_copied};
ghost use Rattle.std.specs.FinMap.{empty, get};
ghost use Rattle.shelf_io.specs.Files.{with_bytes};
ghost use Rattle.shelf_io.specs.States.{new_shelf};
ghost use Rattle.shelf_io.specs.Stored.{files_of, started_of, started_of-held};

use crate::part_answer::PartAnswer;
use crate::read_answer::ReadAnswer;
use crate::shelf::Shelf;
use crate::stored_files::StoredFiles;
use crate::write_answer::WriteAnswer;
use geo_base::NoMemory;
use std::alloc::Global;

/// Files in memory, of which no call fails but for want of memory. A name that isn't held reads as empty.
#[derive(Drop)]
pub struct SureShelf {
    stored: StoredFiles,
}

impl Shelf for SureShelf {
    ghost state = { λ shelf. record {
      held = Some (files_of shelf.stored.files.items);
      faults = 0;
      last_fault = None;
      started = started_of shelf.stored.files.items shelf.stored.is_started;
    } };

    ghost started_is_held = { λ shelf. started_of-held shelf.stored.files.items shelf.stored.is_started };

    fn read_whole(&mut self, name: &str, limit: u64, into: &mut Vec<u8>) -> Result<(), ReadAnswer> {
        self.stored.read(name, limit, into)
    }

    fn read_part(
        &mut self,
        name: &str,
        at: u64,
        limit: u64,
        into: &mut Vec<u8>,
    ) -> Result<u64, PartAnswer> {
        self.stored.read_part(name, at, limit, into)
    }

    fn start(&mut self, name: &str) -> Result<(), WriteAnswer> {
        self.stored.start(name)?;
        Ok(())
    }

    fn append(&mut self, name: &str, piece: &[u8]) -> Result<(), WriteAnswer> {
        match self.stored.append(name, piece) {
            Ok(()) => Ok(()),
            Err(refused) => Err(WriteAnswer::from(refused)),
        }
    }
}

impl SureShelf {
    /// Holds no file.
    pub fn new(alloc: Global) -> SureShelf
        ensures { ⟦<SureShelf as Shelf>⟧.state result ≡ new_shelf (Some empty) }
    {
        SureShelf {
            stored: StoredFiles::new(alloc),
        }
    }

    /// Makes the name hold these bytes, and no name started. Where memory runs out, the shelf stays as it was.
    pub fn put_file(&mut self, name: &str, bytes: &[u8]) -> Result<(), NoMemory>
        ensures put { OnOk result ((⟦<SureShelf as Shelf>⟧.state self.new).held
            ≡ with_bytes (⟦<SureShelf as Shelf>⟧.state self.old).held name.now bytes.now) }
        ensures stopped { OnOk result ((⟦<SureShelf as Shelf>⟧.state self.new).started ≡ None) }
        ensures refused { OnErr result (⟦<SureShelf as Shelf>⟧.state self.new ≡ ⟦<SureShelf as Shelf>⟧.state self.old) }
    {
        self.stored.put(name, bytes)
    }

    /// The bytes of the file, `None` where the name isn't held.
    pub fn file(&self, name: &str) -> Option<&[u8]>
        ensures { ForSome (⟦<SureShelf as Shelf>⟧.state self.now).held
            (λ files. option_copied result ≡ get files name.now) }
    {
        self.stored.file(name)
    }
}
