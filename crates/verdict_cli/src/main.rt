//! A program beside the product: from two tables and plans on standard input it prints the verdict
//! of each plan on each limit, for comparison and measurement. It reckons each verdict anew, or has
//! stacks of factors follow the plans.
//!
//! Proved: no part of the product: from two tables and plans on standard input it prints each
//! plan's verdict on each limit, exactly those of the definition, whether each is reckoned anew or by
//! a stack that follows the plans.
//!
//! Said by: `put_answer`, clauses `answer`, `refused`.
#![tactic(auto)]

mod answer;
mod follower;
mod followers;
mod header;
mod plan;
mod refusal;
mod request;
mod verdicts;

use answer::put_answer;
use refusal::InputRefusal;
use std::alloc::Global;
use std::io::{self, Read, Write};
use std::process::ExitCode;

// The status where the standard input can't be read.
const UNREAD: u8 = 5;

// The status where the standard output can't be written.
const UNWRITTEN: u8 = 6;

// Prints a text, and says by which status the program ends if that is done.
fn end_with(rt: &HostRuntime, text: &[u8], status: u8) -> ExitCode {
    if io::writer(rt).write_all(text).is_err() {
        return ExitCode::from(UNWRITTEN);
    }
    ExitCode::from(status)
}

// What the program prints for the bytes of its input.
fn text_for(alloc: Global, input: &[u8]) -> Result<Vec<u8>, InputRefusal> {
    let mut out = Vec::new(alloc);
    put_answer(alloc, input, &mut out)?;
    Ok(out)
}

fn main(rt: HostRuntime) -> ExitCode {
    let alloc = rt.alloc();
    let mut input = Vec::new(alloc);
    if rt.reader().read_to_end(&mut input).is_err() {
        return end_with(&rt, b"input not read\n", UNREAD);
    }
    match text_for(alloc, input.as_slice()) {
        Ok(text) => end_with(&rt, text.as_slice(), 0),
        Err(refusal) => end_with(&rt, refusal.line(), refusal.status()),
    }
}
