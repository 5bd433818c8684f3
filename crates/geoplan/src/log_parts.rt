ghost use Rattle.std.specs.Prelude.{◌≡◌, ◌^◌, ◌≤◌, ℕ, List, [], IfOk};
ghost use Rattle.shelf_io.specs.States.{ShelfState};
ghost use Rattle.geoplan.specs.Parts.{HasReadLog, ReadsPart};

use crate::file_kind::FileKind;
use crate::load::LoadFault;
use geo_base::NoMemory;
use shelf_io::{PartAnswer, Shelf};
use std::alloc::Global;

/// The most bytes of a part.
const PART: u64 = 65536;

/// A log that is read part by part: its name, how many of its bytes were read, and the latest part.
#[derive(Drop)]
pub struct LogParts<'a> {
    name: &'a str,
    at: u64,
    part: Vec<u8>,
}

impl<'a> LogParts<'a> {
    /// Before the first part. It takes the room for a part.
    pub fn new(alloc: Global, name: &'a str) -> Result<LogParts<'a>, NoMemory>
        ensures { IfOk result (λ parts. (state : ShelfState) → HasReadLog name.entry.now [] parts state state) }
    {
        let part = Vec::with_capacity(alloc, PART as usize)?;
        Ok(LogParts { name, at: 0, part })
    }

    /// Reads the next part, and answers whether there is one. It ends where more bytes were read than a
    /// log may have.
    pub fn read_next<H: Shelf>(&mut self, shelf: &mut H) -> Result<bool, LoadFault<'a>>
        requires { self.old.at ≤ 2 ^ 28 }
        ensures { (name text : List ℕ) (before : ShelfState) → HasReadLog name text self.old before (H.state shelf.old) →
            ReadsPart name text result self.old self.new before (H.state shelf.new) }
    {
        self.part.clear();
        let count = match shelf.read_part(self.name, self.at, PART, &mut self.part) {
            Ok(count) => count,
            Err(PartAnswer::Failed) => return Err(LoadFault::Unread(self.name)),
            Err(PartAnswer::NoMemory) => return Err(LoadFault::NoMemory),
        };
        if count == 0 {
            return Ok(false);
        }
        self.at += count;
        if self.at > FileKind::Log.most_bytes() {
            return Err(LoadFault::TooLong(self.name));
        }
        Ok(true)
    }

    /// The latest part.
    pub fn part(&self) -> &[u8]
        ensures { result.now ≡ self.now.part.items }
    {
        self.part.as_slice()
    }
}
