//! The program: it hands the words of the system, its files and its standard output to the top
//! call, and ends with the status.
#![tactic(auto)]

use geoplan::{Words, geoplan};
use shelf_io::{FileShelf, OutSink};
use std::io::ErrorKind;
use std::process::ExitCode;
use std::{env, fs};

/// The status where the system doesn't give the words of the command line, or gives too many.
const NO_WORDS: u8 = 70;

/// The status where there is no memory for them.
const NO_MEMORY: u8 = 7;

/// The most words of a command line.
const MOST_WORDS: u32 = 2147483647;

/// A file that gives nothing and takes nothing, while it is open for reading.
const NOTHING: &str = "/dev/null";

fn main(rt: HostRuntime) -> ExitCode {
    // Where a standard stream was closed before the start, the system gives its number to the next
    // file that is opened: a report would be written into the log. So three files take the numbers 0
    // to 2 where they are free. None of them can be written to, and what is put to them fails.
    let _input = fs::open(&rt, NOTHING);
    let _output = fs::open(&rt, NOTHING);
    let _errors = fs::open(&rt, NOTHING);
    let alloc = rt.alloc();
    let args = match env::args(&rt) {
        Ok(args) => args,
        Err(refused) => {
            let status = if refused.kind() == ErrorKind::OutOfMemory {
                NO_MEMORY
            } else {
                NO_WORDS
            };
            return ExitCode::from(status);
        }
    };
    let mut words = Words::new(alloc);
    for arg in args {
        if words.len() >= MOST_WORDS {
            return ExitCode::from(NO_WORDS);
        }
        if words.add(arg.as_str()).is_err() {
            return ExitCode::from(NO_MEMORY);
        }
    }
    let mut shelf = FileShelf::new(&rt, alloc);
    let mut out = OutSink::new(&rt);
    ExitCode::from(geoplan(alloc, &words, &mut shelf, &mut out))
}
