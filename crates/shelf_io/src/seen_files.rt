use std::alloc::{AllocError, Global};
use std::fs;
use std::fs::Metadata;
use std::os::unix::fs::MetadataExt;
use std::rt::Files;

/// A regular file of the system and the name under which it was opened.
#[derive(Drop)]
struct SeenFile {
    name: String,
    device: u64,
    number: u64,
}

/// The regular files that were opened. Two names can stand for one file, by a link or by another
/// path, and no rule on the words of a command sees it.
#[derive(Drop)]
pub(crate) struct SeenFiles {
    files: Vec<SeenFile>,
}

impl SeenFiles {
    pub(crate) fn none(alloc: Global) -> SeenFiles {
        SeenFiles {
            files: Vec::new(alloc),
        }
    }

    /// Keeps that this file was opened under the name. What is no regular file, as a device or a pipe,
    /// holds nothing that a start could lose.
    pub(crate) fn add(
        &mut self,
        alloc: Global,
        name: &str,
        file: &Metadata,
    ) -> Result<(), AllocError> {
        if !file.is_file() {
            return Ok(());
        }
        self.files.push(SeenFile {
            name: String::from_str(alloc, name)?,
            device: file.dev(),
            number: file.ino(),
        })?;
        Ok(())
    }

    /// The name stands for a file that was opened under another one.
    pub(crate) fn has_another_name<R: Files>(&self, rt: &R, name: &str) -> bool {
        let Ok(file) = fs::metadata(rt, name) else {
            return false;
        };
        file.is_file()
            && self.files.iter().any(|seen| {
                seen.device == file.dev() && seen.number == file.ino() && seen.name.as_str() != name
            })
    }
}
