//! The line of a dual bound, as the search writes it.
ghost use Rattle.std.specs.Prelude.{◌≡◌, ◌<◌, ◌++◌, All, length, take, OnOk, OnErr};
ghost use Rattle.bound_log.specs.CutSpelling.{share_text, shares_text};
ghost use Rattle.bound_log.specs.DualText.{text_of_share, texts_of_shares};
ghost use Rattle.bound_log.specs.LogText.{line_text};
ghost use Rattle.bound_log.specs.declared.log_leaf.LogLeaf.TheVariants as log_leaf;
ghost use Rattle.bound_log.specs.declared.log_line.LogLine.TheVariants as log_line;

use crate::cut_line::{put_lent_cut, put_number, put_numbers, put_pool_cut};
use crate::cut_text::CutText;
use crate::dual_text::{ShareTexts, Shares};
use cut_pool::{CutPool, Share};
use geo_base::NoMemory;

/// Appends the line of a leaf whose bound is the dual bound of the divisor `d` and these shares,
/// each of a cut of the pool: each share's multiplier, and its cut's limit and displacement. A log
/// wants a divisor and multipliers from 1 to 2^44, and at most 64 shares. Refused, `out` is as
/// before.
pub fn put_dual(out: &mut Vec<u8>, d: u64, shares: &[Share], pool: &CutPool) -> Result<(), NoMemory>
    requires { All (λ share. share.cut < length pool.now) shares.now }
    ensures put { OnOk result (out.new.items ≡ out.old.items ++ line_text (log_line.Leaf (log_leaf.Dual d (texts_of_shares pool.now shares.now)))) }
    ensures refused { OnErr result (out.new.items ≡ out.old.items) }
{
    let start = out.len();
    let done = put_pool_parts(out, d, shares, pool);
    if done.is_err() {
        out.truncate(start);
    }
    done
}

/// Appends the line of a dual bound that a line spells. Refused, `out` is as before.
pub fn put_dual_text(out: &mut Vec<u8>, d: u64, shares: &Shares<'_>) -> Result<(), NoMemory>
    ensures put { OnOk result (out.new.items ≡ out.old.items ++ line_text (log_line.Leaf (log_leaf.Dual d shares.now))) }
    ensures refused { OnErr result (out.new.items ≡ out.old.items) }
{
    let start = out.len();
    let done = put_text_parts(out, d, shares);
    if done.is_err() {
        out.truncate(start);
    }
    done
}

// The line of a dual bound of a pool. On an error a part of it may stand in `out`.
fn put_pool_parts(
    out: &mut Vec<u8>,
    d: u64,
    shares: &[Share],
    pool: &CutPool,
) -> Result<(), NoMemory>
    requires { All (λ share. share.cut < length pool.now) shares.now }
    ensures put { OnOk result (out.new.items ≡ out.old.items ++ line_text (log_line.Leaf (log_leaf.Dual d (texts_of_shares pool.now shares.now)))) }
    ensures part { OnErr result (take (length out.old.items) out.new.items ≡ out.old.items) }
{
    out.push(b'd')?;
    put_numbers(out, d, shares.len() as u64)?;
    put_pool_shares(out, shares, pool)?;
    out.push(b'\n')?;
    Ok(())
}

// The line of a dual bound that a line spells. On an error a part of it may stand in `out`.
fn put_text_parts(out: &mut Vec<u8>, d: u64, shares: &Shares<'_>) -> Result<(), NoMemory>
    ensures put { OnOk result (out.new.items ≡ out.old.items ++ line_text (log_line.Leaf (log_leaf.Dual d shares.now))) }
    ensures part { OnErr result (take (length out.old.items) out.new.items ≡ out.old.items) }
{
    out.push(b'd')?;
    put_numbers(out, d, shares.count())?;
    put_lent_shares(out, shares.shares())?;
    out.push(b'\n')?;
    Ok(())
}

// Appends shares of a pool, with a space before each word. On an error some may stand in `out`.
fn put_pool_shares(out: &mut Vec<u8>, shares: &[Share], pool: &CutPool) -> Result<(), NoMemory>
    requires { All (λ share. share.cut < length pool.now) shares.now }
    ensures put { OnOk result (out.new.items ≡ out.old.items ++ shares_text (texts_of_shares pool.now shares.now)) }
    ensures part { OnErr result (take (length out.old.items) out.new.items ≡ out.old.items) }
{
    for share in shares {
        put_pool_share(out, share, pool)?;
    }
    Ok(())
}

// Appends a share of a pool. On an error a part may stand in `out`.
fn put_pool_share(out: &mut Vec<u8>, share: &Share, pool: &CutPool) -> Result<(), NoMemory>
    requires { share.now.cut < length pool.now }
    ensures put { OnOk result (out.new.items ≡ out.old.items ++ share_text (text_of_share pool.now share.now)) }
    ensures part { OnErr result (take (length out.old.items) out.new.items ≡ out.old.items) }
{
    put_number(out, share.y)?;
    put_pool_cut(out, pool.get(share.cut))?;
    Ok(())
}

// Appends shares that a line spells, with a space before each word. On an error some may stand in
// `out`.
fn put_lent_shares(out: &mut Vec<u8>, shares: ShareTexts<'_>) -> Result<(), NoMemory>
    ensures put { OnOk result (out.new.items ≡ out.old.items ++ shares_text shares.entry) }
    ensures part { OnErr result (take (length out.old.items) out.new.items ≡ out.old.items) }
{
    let mut shares = shares;
    'shares: while let Some((multiplier, cut)) = shares.next() {
        put_lent_share(out, multiplier, &cut)?;
    }
    Ok(())
}

// Appends a share that a line spells. On an error a part may stand in `out`.
fn put_lent_share(out: &mut Vec<u8>, multiplier: u64, cut: &CutText<'_>) -> Result<(), NoMemory>
    ensures put { OnOk result (out.new.items ≡ out.old.items ++ share_text (multiplier, cut.now)) }
    ensures part { OnErr result (take (length out.old.items) out.new.items ≡ out.old.items) }
{
    put_number(out, multiplier)?;
    put_lent_cut(out, cut)?;
    Ok(())
}
