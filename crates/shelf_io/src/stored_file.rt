ghost use Rattle.std.specs.Prelude.{◌≡◌, ◌++◌, IfOk, OnOk, OnErr, bytes_eq};

use geo_base::NoMemory;
use std::alloc::Global;
use std::marker::Model;

/// A file in memory: its name and its bytes.
#[derive(Drop)]
pub(crate) struct StoredFile {
    name: String,
    content: Vec<u8>,
}

impl Model for StoredFile {
    ghost use Rattle.std.specs.Prelude.{ℕ, List};
    ghost use Rattle.std.specs.String.{string_bytes};

    ghost Value = { List ℕ × List ℕ };

    ghost view = { λ file. (string_bytes file.name, file.content.items) };
}

impl StoredFile {
    pub(crate) fn new(alloc: Global, name: &str, content: Vec<u8>) -> Result<StoredFile, NoMemory>
        ensures { IfOk result (λ file. file ≡ (name.now, content.items)) }
    {
        let name = String::from_str(alloc, name)?;
        Ok(StoredFile { name, content })
    }

    pub(crate) fn is_named(&self, name: &str) -> bool
        ensures { result ≡ bytes_eq name.now self.now.0 }
    {
        name == self.name.as_str()
    }

    pub(crate) fn content(&self) -> &[u8]
        ensures { result.now ≡ self.now.1 }
    {
        self.content.as_slice()
    }

    /// Adds the piece at the end. Where memory runs out, the file stays as it was.
    pub(crate) fn add(&mut self, piece: &[u8]) -> Result<(), NoMemory>
        ensures added { OnOk result (self.new ≡ (self.old.0, self.old.1 ++ piece.now)) }
        ensures refused { OnErr result (self.new ≡ self.old) }
    {
        self.content.extend_from_slice(piece)?;
        Ok(())
    }
}
