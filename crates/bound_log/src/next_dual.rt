//! The words of shares and of dual bounds, taken from the front of a walk.
ghost use Rattle.std.specs.Prelude.{ℕ, List, IfSome, IfNone, IsTrue, IsFalse};
ghost use Rattle.bound_log.specs.CutText.{CutTextOf};
ghost use Rattle.bound_log.specs.DualReading.{DualBegins, ShareBegins, SharesBegin, shares_in};
ghost use Rattle.lent_parts.specs.Pieces.{words_of};

use crate::cut_text::CutText;
use crate::cut_words::next_number;
use crate::dual_text::Shares;
use crate::next_cut::next_cut;
use lent_parts::TokenWalk;

// Takes the words of a share, whose cut is lent from them. On None some may be taken.
pub fn next_share<'a>(words: &mut TokenWalk<'a>) -> Option<(u64, CutText<'a>)>
    ensures some { IfSome result (λ share. ShareBegins (words_of words.old) share (words_of words.new)) }
    ensures none { IfNone result ((share : ℕ × CutTextOf) (after : List (List ℕ)) → ShareBegins (words_of words.old) share after → ⊥) }
{
    let Some(multiplier) = next_number(words) else {
        return None;
    };
    match next_cut(words) {
        Some(cut) => Some((multiplier, cut)),
        None => None,
    }
}

// Takes the words of so many shares, and answers whether they were there.
fn take_shares(words: &mut TokenWalk<'_>, count: u64) -> bool
    ensures taken { IsTrue result → SharesBegin count (words_of words.old) (shares_in count (words_of words.old)) (words_of words.new) }
    ensures missing { IsFalse result → (shares : List (ℕ × CutTextOf)) (after : List (List ℕ)) → SharesBegin count (words_of words.old) shares after → ⊥ }
{
    let mut left = count;
    'shares: while left > 0 {
        let Some(_share) = next_share(words) else {
            return false;
        };
        left -= 1;
    }
    true
}

// Takes the words of a dual bound, its divisor and its shares, which are lent from them. On None
// some may be taken.
pub fn next_dual<'a>(words: &mut TokenWalk<'a>) -> Option<(u64, Shares<'a>)>
    ensures some { IfSome result (λ dual. DualBegins (words_of words.old) dual.0 dual.1 (words_of words.new)) }
    ensures none { IfNone result ((divisor : ℕ) (shares : List (ℕ × CutTextOf)) (after : List (List ℕ)) → DualBegins (words_of words.old) divisor shares after → ⊥) }
{
    let Some(divisor) = next_number(words) else {
        return None;
    };
    let Some(count) = next_number(words) else {
        return None;
    };
    let spelled = words.rest();
    if take_shares(words, count) {
        Some((divisor, Shares::of(count, spelled)))
    } else {
        None
    }
}
