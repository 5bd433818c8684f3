//! Named files and a stream for output, as traits whose contracts tell what is held and written
//! after each answer; forms in memory for tests (`MemShelf`, `MemSink` with calls that fail,
//! `SureShelf`, `SureSink`), and the adapters to real files.
//!
//! Proved: what is held, started and written after each answer, and that a fault comes only where
//! the count rose.
//!
//! Said by: traits `Shelf`, `Sink`, kept by `MemShelf`, `SureShelf`, `FileShelf`, `MemSink`,
//! `SureSink`, `OutSink`.
//!
//! Caller: `read_file` of `geoplan/src/load.rt`.
#![tactic(auto)]

mod access;
mod failing_calls;
mod fault;
mod faults;
mod file_shelf;
mod mem_shelf;
mod mem_sink;
mod out_sink;
mod part_answer;
mod read_answer;
mod seen_files;
mod shelf;
mod sink;
mod stored_file;
mod stored_files;
mod sure_shelf;
mod sure_sink;
mod transfer;
mod write_answer;

pub use access::Access;
pub use file_shelf::FileShelf;
pub use mem_shelf::MemShelf;
pub use mem_sink::MemSink;
pub use out_sink::OutSink;
pub use part_answer::PartAnswer;
pub use read_answer::ReadAnswer;
pub use shelf::Shelf;
pub use sink::Sink;
pub use sure_shelf::SureShelf;
pub use sure_sink::SureSink;
pub use write_answer::WriteAnswer;
