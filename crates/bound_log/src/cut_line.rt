//! The line of a cut, as the search writes it.
ghost use Rattle.std.specs.Prelude.{◌≡◌, ◌++◌, length, take, OnOk, OnErr};
ghost use Rattle.std.specs.Fmt.{decimal};
ghost use Rattle.bound_log.specs.CutSpelling.{cut_line_text, cut_text, numbers_text, pair_text, pairs_text, spaced};
ghost use Rattle.bound_log.specs.CutText.{moves_from, text_of_cut};
ghost use Rattle.bound_log.specs.LogText.{line_text};
ghost use Rattle.bound_log.specs.declared.log_leaf.LogLeaf.TheVariants as log_leaf;
ghost use Rattle.bound_log.specs.declared.log_line.LogLine.TheVariants as log_line;

use crate::cut_text::{CutText, Pairs};
use cut_pool::Cut;
use geo_base::NoMemory;
use geo_model::Displacement;
use itoa::Buffer;

/// Appends the line of a leaf whose cut this is: its limit, and the unknowns that its displacement
/// moves. Refused, `out` is as before.
pub fn put_cut(out: &mut Vec<u8>, cut: &Cut) -> Result<(), NoMemory>
    ensures put { OnOk result (out.new.items ≡ out.old.items ++ line_text (log_line.Leaf (log_leaf.Cut (text_of_cut cut.now)))) }
    ensures refused { OnErr result (out.new.items ≡ out.old.items) }
{
    let start = out.len();
    let done = put_cut_parts(out, b'x', cut);
    if done.is_err() {
        out.truncate(start);
    }
    done
}

/// Appends the line of a cut that a line spells. Refused, `out` is as before.
pub fn put_cut_text(out: &mut Vec<u8>, cut: &CutText<'_>) -> Result<(), NoMemory>
    ensures put { OnOk result (out.new.items ≡ out.old.items ++ line_text (log_line.Leaf (log_leaf.Cut cut.now))) }
    ensures refused { OnErr result (out.new.items ≡ out.old.items) }
{
    let start = out.len();
    let done = put_text_parts(out, b'x', cut);
    if done.is_err() {
        out.truncate(start);
    }
    done
}

// The line of a kind whose other words are those of a cut of a pool. On an error a part of it may
// stand in `out`.
pub fn put_cut_parts(out: &mut Vec<u8>, kind: u8, cut: &Cut) -> Result<(), NoMemory>
    ensures put { OnOk result (out.new.items ≡ out.old.items ++ cut_line_text kind (text_of_cut cut.now)) }
    ensures part { OnErr result (take (length out.old.items) out.new.items ≡ out.old.items) }
{
    out.push(kind)?;
    put_pool_cut(out, cut)?;
    out.push(b'\n')?;
    Ok(())
}

// The line of a kind whose other words are those of a cut that a line spells. On an error a part of
// it may stand in `out`.
pub fn put_text_parts(out: &mut Vec<u8>, kind: u8, cut: &CutText<'_>) -> Result<(), NoMemory>
    ensures put { OnOk result (out.new.items ≡ out.old.items ++ cut_line_text kind cut.now) }
    ensures part { OnErr result (take (length out.old.items) out.new.items ≡ out.old.items) }
{
    out.push(kind)?;
    put_lent_cut(out, cut)?;
    out.push(b'\n')?;
    Ok(())
}

// Appends a cut of a pool, with a space before each word. On an error a part may stand in `out`.
pub fn put_pool_cut(out: &mut Vec<u8>, cut: &Cut) -> Result<(), NoMemory>
    ensures put { OnOk result (out.new.items ≡ out.old.items ++ cut_text (text_of_cut cut.now)) }
    ensures part { OnErr result (take (length out.old.items) out.new.items ≡ out.old.items) }
{
    put_numbers(out, cut.limit as u64, count_moves(&cut.x))?;
    put_moves(out, &cut.x)?;
    Ok(())
}

// Appends a cut that a line spells, with a space before each word. On an error a part may stand in
// `out`.
pub fn put_lent_cut(out: &mut Vec<u8>, cut: &CutText<'_>) -> Result<(), NoMemory>
    ensures put { OnOk result (out.new.items ≡ out.old.items ++ cut_text cut.now) }
    ensures part { OnErr result (take (length out.old.items) out.new.items ≡ out.old.items) }
{
    put_numbers(out, cut.limit(), cut.count())?;
    put_pairs(out, cut.pairs())?;
    Ok(())
}

// Appends the pairs, with a space before each word. On an error some may stand in `out`.
fn put_pairs(out: &mut Vec<u8>, pairs: Pairs<'_>) -> Result<(), NoMemory>
    ensures put { OnOk result (out.new.items ≡ out.old.items ++ pairs_text pairs.entry) }
    ensures part { OnErr result (take (length out.old.items) out.new.items ≡ out.old.items) }
{
    let mut pairs = pairs;
    'pairs: while let Some((unknown, by)) = pairs.next() {
        put_pair(out, unknown, by)?;
    }
    Ok(())
}

// Appends the moves of a displacement, as pairs. On an error some may stand in `out`.
fn put_moves(out: &mut Vec<u8>, x: &Displacement) -> Result<(), NoMemory>
    ensures put { OnOk result (out.new.items ≡ out.old.items ++ pairs_text (moves_from 0 x.now)) }
    ensures part { OnErr result (take (length out.old.items) out.new.items ≡ out.old.items) }
{
    let entries = x.entries();
    for (i, by) in entries.iter().enumerate() {
        if *by != 0 {
            put_pair(out, i as u64, *by as i128)?;
        }
    }
    Ok(())
}

// How many unknowns a displacement moves.
fn count_moves(x: &Displacement) -> u64
    ensures { result ≡ length (moves_from 0 x.now) }
{
    let entries = x.entries();
    // The length fits its type, for the proof.
    let _size = entries.len();
    let mut count = 0u64;
    for by in entries {
        if *by != 0 {
            count += 1;
        }
    }
    count
}

// Appends a pair. On an error a part may stand in `out`.
fn put_pair(out: &mut Vec<u8>, unknown: u64, by: i128) -> Result<(), NoMemory>
    ensures put { OnOk result (out.new.items ≡ out.old.items ++ pair_text (unknown, by)) }
    ensures part { OnErr result (take (length out.old.items) out.new.items ≡ out.old.items) }
{
    put_number(out, unknown)?;
    let mut buffer = Buffer::new();
    out.push(b' ')?;
    out.extend_from_slice(buffer.format(by).as_bytes())?;
    Ok(())
}

// Appends two numbers, with a space before each. On an error a part may stand in `out`.
pub fn put_numbers(out: &mut Vec<u8>, first: u64, second: u64) -> Result<(), NoMemory>
    ensures put { OnOk result (out.new.items ≡ out.old.items ++ numbers_text first second) }
    ensures part { OnErr result (take (length out.old.items) out.new.items ≡ out.old.items) }
{
    put_number(out, first)?;
    put_number(out, second)?;
    Ok(())
}

// Appends a space and a number. On an error the space may stand in `out`.
pub fn put_number(out: &mut Vec<u8>, number: u64) -> Result<(), NoMemory>
    ensures put { OnOk result (out.new.items ≡ out.old.items ++ spaced (decimal number)) }
    ensures part { OnErr result (take (length out.old.items) out.new.items ≡ out.old.items) }
{
    let mut buffer = Buffer::new();
    out.push(b' ')?;
    out.extend_from_slice(buffer.format(number).as_bytes())?;
    Ok(())
}
