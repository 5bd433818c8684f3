//! The lines of a log of format 2, as the search writes them. Those of splits, of prices and of
//! limits that refute are the lines of format 1.
ghost use Rattle.std.specs.Prelude.{◌≡◌, ◌++◌, length, take, OnOk, OnErr, IfSome, IfNone};
ghost use Rattle.bound_log.specs.CutSpelling.{uses_text};
ghost use Rattle.bound_log.specs.CutText.{text_of_cut};
ghost use Rattle.bound_log.specs.Formats.{head_body_in};
ghost use Rattle.bound_log.specs.NamedText.{named_text, second_head_text};
ghost use Rattle.bound_log.specs.UseText.{uses_of};
ghost use Rattle.bound_log.specs.declared.log_format.LogFormat.{LogFormat as FormatOf};
ghost use Rattle.bound_log.specs.declared.named_line.NamedLine.TheVariants as named_line;

use crate::cut_line::{put_cut_parts, put_numbers, put_text_parts};
use crate::cut_text::CutText;
use crate::line::{is_head, put_words};
use crate::log_format::LogFormat;
use cut_pool::{Cut, Share};
use geo_base::NoMemory;
use itoa::Buffer;

/// The first line of a log of format 2, without its LF.
const SECOND_HEAD: &[u8] = b"geoplan-log 2";

/// The format whose first line this is, which is given without its LF.
pub fn head_format(line: &[u8]) -> Option<LogFormat>
    ensures some { IfSome result (λ format. line.now ≡ head_body_in format) }
    ensures none { IfNone result ((format : FormatOf) → line.now ≡ head_body_in format → ⊥) }
{
    if is_head(line) {
        Some(LogFormat::First)
    } else if line == SECOND_HEAD {
        Some(LogFormat::Second)
    } else {
        None
    }
}

/// Appends the first line of a log of format 2. Refused, `out` is as before.
pub fn put_head2(out: &mut Vec<u8>) -> Result<(), NoMemory>
    ensures put { OnOk result (out.new.items ≡ out.old.items ++ second_head_text) }
    ensures refused { OnErr result (out.new.items ≡ out.old.items) }
{
    put_words(out, SECOND_HEAD, b"")
}

/// Appends the line that names a cut: its limit, and the unknowns that its displacement moves.
/// Refused, `out` is as before.
pub fn put_named(out: &mut Vec<u8>, cut: &Cut) -> Result<(), NoMemory>
    ensures put { OnOk result (out.new.items ≡ out.old.items ++ named_text (named_line.Named (text_of_cut cut.now))) }
    ensures refused { OnErr result (out.new.items ≡ out.old.items) }
{
    let start = out.len();
    let done = put_cut_parts(out, b'k', cut);
    if done.is_err() {
        out.truncate(start);
    }
    done
}

/// Appends the line that names a cut which a line spells. Refused, `out` is as before.
pub fn put_named_text(out: &mut Vec<u8>, cut: &CutText<'_>) -> Result<(), NoMemory>
    ensures put { OnOk result (out.new.items ≡ out.old.items ++ named_text (named_line.Named cut.now)) }
    ensures refused { OnErr result (out.new.items ≡ out.old.items) }
{
    let start = out.len();
    let done = put_text_parts(out, b'k', cut);
    if done.is_err() {
        out.truncate(start);
    }
    done
}

/// Appends the line of a leaf whose cut has this number among those that are named, from 0 on.
/// Refused, `out` is as before.
pub fn put_use(out: &mut Vec<u8>, cut: u32) -> Result<(), NoMemory>
    ensures put { OnOk result (out.new.items ≡ out.old.items ++ named_text (named_line.UseCut cut)) }
    ensures refused { OnErr result (out.new.items ≡ out.old.items) }
{
    let mut buffer = Buffer::new();
    put_words(out, b"x ", buffer.format(cut as u64).as_bytes())
}

/// Appends the line of a leaf whose bound is the dual bound of the divisor `d` and these shares,
/// whose cuts have their numbers among those that are named. A log wants a divisor and multipliers
/// from 1 to 2^44, and at most 64 shares. Refused, `out` is as before.
pub fn put_dual2(out: &mut Vec<u8>, d: u64, shares: &[Share]) -> Result<(), NoMemory>
    ensures put { OnOk result (out.new.items ≡ out.old.items ++ named_text (named_line.UseDual d (uses_of shares.now))) }
    ensures refused { OnErr result (out.new.items ≡ out.old.items) }
{
    let start = out.len();
    let done = put_use_dual_parts(out, d, shares);
    if done.is_err() {
        out.truncate(start);
    }
    done
}

// The line of a dual bound. On an error a part of it may stand in `out`.
fn put_use_dual_parts(out: &mut Vec<u8>, d: u64, shares: &[Share]) -> Result<(), NoMemory>
    ensures put { OnOk result (out.new.items ≡ out.old.items ++ named_text (named_line.UseDual d (uses_of shares.now))) }
    ensures part { OnErr result (take (length out.old.items) out.new.items ≡ out.old.items) }
{
    out.push(b'd')?;
    put_numbers(out, d, shares.len() as u64)?;
    put_uses(out, shares)?;
    out.push(b'\n')?;
    Ok(())
}

// Appends the uses of shares, with a space before each word. On an error some may stand in `out`.
fn put_uses(out: &mut Vec<u8>, shares: &[Share]) -> Result<(), NoMemory>
    ensures put { OnOk result (out.new.items ≡ out.old.items ++ uses_text (uses_of shares.now)) }
    ensures part { OnErr result (take (length out.old.items) out.new.items ≡ out.old.items) }
{
    for share in shares {
        put_numbers(out, share.y, share.cut as u64)?;
    }
    Ok(())
}
