ghost use Rattle.std.specs.Prelude.{◌≡◌, ℕ, ◌^◌, ◌≤◌, List, ◌++◌, length, None, IfOk, OnOk, OnErr};
ghost use Rattle.std.specs.Option.{option_map};
ghost use Rattle.std.specs.String.{string_bytes};
ghost use Rattle.shelf_io.specs.States.{new_shelf};

use crate::access::Access;
use crate::faults::Faults;
use crate::part_answer::PartAnswer;
use crate::read_answer::ReadAnswer;
use crate::seen_files::SeenFiles;
use crate::shelf::Shelf;
use crate::transfer::{read_most, read_up_to, write_whole};
use crate::write_answer::WriteAnswer;
use std::alloc::Global;
use std::fs;
use std::fs::OpenFile;
use std::io::{Read, Seek, SeekFrom};
use std::rt::Files;

/// A file that is open for writing, under its name.
#[derive(Drop)]
struct OpenedFile<F> {
    name: String,
    file: F,
}

/// A file that was read up to a place, under its name. The next part is read on from there, so that a
/// source that can only be read once is read in parts too.
#[derive(Drop)]
struct ReadFile<F> {
    name: String,
    file: F,
    at: u64,
}

/// The files of the system. It doesn't tell what they hold. A file that isn't there is a fault, and so
/// is a start of a regular file that this shelf opened under another name: a link to a table, given as
/// the name of a log, would lose the table.
#[derive(Drop)]
pub struct FileShelf<'r, R: Files> {
    rt: &'r R,
    alloc: Global,
    faults: Faults,
    opened: Option<OpenedFile<R::File>>,
    reading: Option<ReadFile<R::File>>,
    seen: SeenFiles,
}

impl<'r, R: Files> Shelf for FileShelf<'r, R> {
    ghost state = { λ shelf. record {
      held = None;
      faults = shelf.faults.count;
      last_fault = shelf.faults.last;
      started = option_map (λ opened. string_bytes opened.name) shelf.opened;
    } };

    ghost started_is_held = { λ shelf files name told started. absurd (Prim.cc) };

    fn read_whole(&mut self, name: &str, limit: u64, into: &mut Vec<u8>) -> Result<(), ReadAnswer> {
        let kept = String::from_str(self.alloc, name)?;
        match read_file(self.rt, self.alloc, &mut self.seen, name, limit, into) {
            Err(ReadAnswer::Failed) => {
                self.faults.add(Access::Read, kept);
                Err(ReadAnswer::Failed)
            }
            answer => answer,
        }
    }

    fn read_part(
        &mut self,
        name: &str,
        at: u64,
        limit: u64,
        into: &mut Vec<u8>,
    ) -> Result<u64, PartAnswer> {
        let kept = String::from_str(self.alloc, name)?;
        let before = self.reading.take();
        let mut file = match file_at(self.rt, self.alloc, &mut self.seen, before, name, at) {
            Ok(file) => file,
            Err(PartAnswer::Failed) => {
                self.faults.add(Access::Read, kept);
                return Err(PartAnswer::Failed);
            }
            Err(PartAnswer::NoMemory) => return Err(PartAnswer::NoMemory),
        };
        match read_file_part(&mut file, limit, into) {
            Ok(count) => {
                self.reading = Some(ReadFile {
                    name: kept,
                    file,
                    at: at + count,
                });
                Ok(count)
            }
            Err(PartAnswer::Failed) => {
                self.faults.add(Access::Read, kept);
                Err(PartAnswer::Failed)
            }
            Err(PartAnswer::NoMemory) => Err(PartAnswer::NoMemory),
        }
    }

    fn start(&mut self, name: &str) -> Result<(), WriteAnswer> {
        self.opened = None;
        self.reading = None;
        let name_kept = String::from_str(self.alloc, name)?;
        match create_seen(self.rt, self.alloc, &mut self.seen, name) {
            Ok(file) => {
                self.opened = Some(OpenedFile {
                    name: name_kept,
                    file,
                });
                Ok(())
            }
            Err(WriteAnswer::Failed) => {
                self.faults.add(Access::Write, name_kept);
                Err(WriteAnswer::Failed)
            }
            Err(WriteAnswer::NoMemory) => Err(WriteAnswer::NoMemory),
        }
    }

    fn append(&mut self, _name: &str, piece: &[u8]) -> Result<(), WriteAnswer> {
        let mut opened = self.opened.take().unwrap();
        if write_whole(&mut opened.file, piece) {
            self.opened = Some(opened);
            return Ok(());
        }
        let OpenedFile { name, file: _ } = opened;
        self.faults.add(Access::Write, name);
        Err(WriteAnswer::Failed)
    }
}

impl<'r, R: Files> FileShelf<'r, R> {
    /// No file is started.
    pub fn new(rt: &'r R, alloc: Global) -> FileShelf<'r, R>
        ensures { ⟦<FileShelf<'r, R> as Shelf>⟧.state result ≡ new_shelf None }
    {
        FileShelf {
            rt,
            alloc,
            faults: Faults::none(),
            opened: None,
            reading: None,
            seen: SeenFiles::none(alloc),
        }
    }
}

/// Opens the file and appends its bytes to `into`, which stays as it was after a refusal.
fn read_file<R: Files>(
    rt: &R,
    alloc: Global,
    seen: &mut SeenFiles,
    name: &str,
    limit: u64,
    into: &mut Vec<u8>,
) -> Result<(), ReadAnswer>
    requires { limit ≤ 2 ^ 28 }
    ensures appends { OnOk result ((bytes : List ℕ) × (length bytes ≤ limit)
        × (into.new.items ≡ into.old.items ++ bytes)) }
    ensures unread { OnErr result (into.new.items ≡ into.old.items) }
{
    let mut file = match open_seen(rt, alloc, seen, name) {
        Ok(file) => file,
        Err(PartAnswer::Failed) => return Err(ReadAnswer::Failed),
        Err(PartAnswer::NoMemory) => return Err(ReadAnswer::NoMemory),
    };
    let start = into.len();
    match read_up_to(&mut file, limit, into) {
        Ok(()) => Ok(()),
        Err(refused) => {
            into.truncate(start);
            Err(refused)
        }
    }
}

/// The file, to be read from `at` on: the one that was read up to there, else opened anew.
fn file_at<R: Files>(
    rt: &R,
    alloc: Global,
    seen: &mut SeenFiles,
    before: Option<ReadFile<R::File>>,
    name: &str,
    at: u64,
) -> Result<R::File, PartAnswer> {
    if let Some(kept) = before {
        if kept.at == at && kept.name.as_str() == name {
            return Ok(kept.file);
        }
    }
    let mut file = open_seen(rt, alloc, seen, name)?;
    if at > 0 && file.seek(SeekFrom::Start(at)).is_err() {
        return Err(PartAnswer::Failed);
    }
    Ok(file)
}

/// Opens the file for reading, and keeps which one it is.
fn open_seen<R: Files>(
    rt: &R,
    alloc: Global,
    seen: &mut SeenFiles,
    name: &str,
) -> Result<R::File, PartAnswer> {
    let Ok(file) = fs::open(rt, name) else {
        return Err(PartAnswer::Failed);
    };
    if let Ok(known) = file.metadata() {
        seen.add(alloc, name, &known)?;
    }
    Ok(file)
}

/// Makes the file hold no bytes, unless it was opened under another name, and keeps which one it is.
fn create_seen<R: Files>(
    rt: &R,
    alloc: Global,
    seen: &mut SeenFiles,
    name: &str,
) -> Result<R::File, WriteAnswer> {
    if seen.has_another_name(rt, name) {
        return Err(WriteAnswer::Failed);
    }
    let Ok(file) = fs::create(rt, name) else {
        return Err(WriteAnswer::Failed);
    };
    if let Ok(known) = file.metadata() {
        seen.add(alloc, name, &known)?;
    }
    Ok(file)
}

/// Appends the next bytes of a file to `into`, which stays as it was after a refusal.
fn read_file_part<F: Read>(file: &mut F, limit: u64, into: &mut Vec<u8>) -> Result<u64, PartAnswer>
    requires { limit ≤ 65536 }
    ensures appends { IfOk result (λ count. (bytes : List ℕ) × (length bytes ≡ count) × (count ≤ limit)
        × (into.new.items ≡ into.old.items ++ bytes)) }
    ensures unread { OnErr result (into.new.items ≡ into.old.items) }
{
    let before = into.len();
    match read_most(file, limit, into) {
        Ok(count) => Ok(count),
        Err(refused) => {
            into.truncate(before);
            Err(refused)
        }
    }
}
