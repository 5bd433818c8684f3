//! The lines of a log, as the search writes them.
ghost use Rattle.std.specs.Prelude.{◌≡◌, ◌+◌, ◌≤◌, ◌++◌, length, OnOk, OnErr, IsTrue, ◌↔◌};
ghost use Rattle.bound_log.specs.LogText.{head_body, head_text, line_text, line_end};
ghost use Rattle.bound_log.specs.declared.log_leaf.LogLeaf.TheVariants as log_leaf;
ghost use Rattle.bound_log.specs.declared.log_line.LogLine.TheVariants as log_line;

use crate::cut_line::put_cut_text;
use crate::dual_line::put_dual_text;
use crate::log_leaf::LogLeaf;
use crate::log_line::LogLine;
use geo_base::NoMemory;
use itoa::Buffer;

/// The first line of a log of format 1, without its LF.
const HEAD: &[u8] = b"geoplan-log 1";

/// Whether a line, which is given without its LF, is the first line of a log of format 1.
pub fn is_head(line: &[u8]) -> bool
    ensures { IsTrue result ↔ line.now ≡ head_body }
{
    line == HEAD
}

/// Appends a word, digits and the end of a line. Refused, `out` is as before.
pub fn put_words(out: &mut Vec<u8>, word: &[u8], digits: &[u8]) -> Result<(), NoMemory>
    requires { length word.now + length digits.now ≤ 64 }
    ensures put { OnOk result (out.new.items ≡ out.old.items ++ (word.now ++ (digits.now ++ line_end))) }
    ensures refused { OnErr result (out.new.items ≡ out.old.items) }
{
    out.reserve(word.len() + digits.len() + 1)?;
    out.extend_from_slice(word)?;
    out.extend_from_slice(digits)?;
    out.push(b'\n')?;
    Ok(())
}

/// Appends a line after the first one. Refused, `out` is as before.
pub fn put_line(out: &mut Vec<u8>, line: &LogLine<'_>) -> Result<(), NoMemory>
    ensures put { OnOk result (out.new.items ≡ out.old.items ++ line_text line.now) }
    ensures refused { OnErr result (out.new.items ≡ out.old.items) }
{
    let mut buffer = Buffer::new();
    match line {
        LogLine::Split(candidate) => put_words(out, b"s ", buffer.format(*candidate).as_bytes()),
        LogLine::Leaf(LogLeaf::Cost) => put_words(out, b"c", b""),
        LogLine::Leaf(LogLeaf::Pivot(limit)) => {
            put_words(out, b"p ", buffer.format(*limit).as_bytes())
        }
        LogLine::Leaf(LogLeaf::Cut(cut)) => put_cut_text(out, cut),
        LogLine::Leaf(LogLeaf::Dual(divisor, shares)) => put_dual_text(out, *divisor, shares),
    }
}

/// Appends the first line of a log of format 1. Refused, `out` is as before.
pub fn put_head(out: &mut Vec<u8>) -> Result<(), NoMemory>
    ensures put { OnOk result (out.new.items ≡ out.old.items ++ head_text) }
    ensures refused { OnErr result (out.new.items ≡ out.old.items) }
{
    put_words(out, HEAD, b"")
}

/// Appends the line of a split on candidate `c`. Refused, `out` is as before.
pub fn put_split(out: &mut Vec<u8>, c: u32) -> Result<(), NoMemory>
    ensures put { OnOk result (out.new.items ≡ out.old.items ++ line_text (log_line.Split c)) }
    ensures refused { OnErr result (out.new.items ≡ out.old.items) }
{
    put_line(out, &LogLine::Split(c as u64))
}

/// Appends the line of a leaf whose bound is the price of what is chosen. Refused, `out` is as
/// before.
pub fn put_cost(out: &mut Vec<u8>) -> Result<(), NoMemory>
    ensures put { OnOk result (out.new.items ≡ out.old.items ++ line_text (log_line.Leaf log_leaf.Cost)) }
    ensures refused { OnErr result (out.new.items ≡ out.old.items) }
{
    put_line(out, &LogLine::Leaf(LogLeaf::Cost))
}

/// Appends the line of a leaf that limit `l` refutes. Refused, `out` is as before.
pub fn put_pivot(out: &mut Vec<u8>, l: u32) -> Result<(), NoMemory>
    ensures put { OnOk result (out.new.items ≡ out.old.items ++ line_text (log_line.Leaf (log_leaf.Pivot l))) }
    ensures refused { OnErr result (out.new.items ≡ out.old.items) }
{
    put_line(out, &LogLine::Leaf(LogLeaf::Pivot(l as u64)))
}
