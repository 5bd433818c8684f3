ghost use Rattle.std.specs.Prelude.{◌≡◌, ◌+◌, ◌≤◌, IfSome, IfNone, Some, None, drop};
ghost use Rattle.verdict_cli.specs.Request.{parts_of, request_of, request_seen};

use crate::header::{Header, read_header};
use lent_parts::lines;

/// The parts of the standard input, each lent from it.
#[derive(Clone, Copy, Debug)]
pub struct Request<'a> {
    pub points: &'a [u8],
    pub candidates: &'a [u8],
    pub redundancy: u32,
    pub times: u32,
    pub plans: &'a [u8],
}

/// The parts of an input. None where its first line isn't one, or fewer bytes follow than it says.
pub fn read_request(input: &[u8]) -> Option<Request<'_>>
    ensures some { IfSome result (λ request. request_of input.now ≡ Some (request_seen request)) }
    ensures none { IfNone result (request_of input.now ≡ None) }
    ensures redundancy { IfSome result (λ request. request.redundancy ≤ 999) }
{
    let Some(line) = lines(input).next() else {
        return None;
    };
    let Some(header) = read_header(line.text) else {
        return None;
    };
    read_parts(header, after(input, line.text.len()))
}

// What follows a line of this length and its LF.
fn after(text: &[u8], length: usize) -> &[u8]
    ensures { result.now ≡ drop (length + 1) text.now }
{
    if text.len() <= length {
        return &text[text.len()..];
    }
    &text[length + 1..]
}

// The parts of what follows a first line. None where it is too short.
fn read_parts(header: Header, rest: &[u8]) -> Option<Request<'_>>
    ensures some { IfSome result (λ request. parts_of header rest.now ≡ Some (request_seen request)) }
    ensures none { IfNone result (parts_of header rest.now ≡ None) }
    ensures redundancy { IfSome result (λ request. request.redundancy ≡ header.redundancy) }
{
    let points = header.points as usize;
    let candidates = header.candidates as usize;
    if rest.len() < points {
        return None;
    }
    let (first, second) = rest.split_at(points);
    if second.len() < candidates {
        return None;
    }
    let (third, plans) = second.split_at(candidates);
    Some(Request {
        points: first,
        candidates: third,
        redundancy: header.redundancy,
        times: header.times,
        plans,
    })
}
