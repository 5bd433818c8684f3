//! The words of uses of cuts, and of dual bounds of format 2, taken from the front of a walk.
ghost use Rattle.std.specs.Prelude.{ℕ, List, IfSome, IfNone, IsTrue, IsFalse};
ghost use Rattle.bound_log.specs.UseReading.{UseBegins, UseDualBegins, UsesBegin, uses_in};
ghost use Rattle.lent_parts.specs.Pieces.{words_of};

use crate::cut_words::next_number;
use crate::uses::Uses;
use lent_parts::TokenWalk;

// Takes the words of a use. On None some may be taken.
pub fn next_use(words: &mut TokenWalk<'_>) -> Option<(u64, u64)>
    ensures some { IfSome result (λ one. UseBegins (words_of words.old) one (words_of words.new)) }
    ensures none { IfNone result ((one : ℕ × ℕ) (after : List (List ℕ)) → UseBegins (words_of words.old) one after → ⊥) }
{
    let Some(multiplier) = next_number(words) else {
        return None;
    };
    match next_number(words) {
        Some(cut) => Some((multiplier, cut)),
        None => None,
    }
}

// Takes the words of so many uses, and answers whether they were there.
fn take_uses(words: &mut TokenWalk<'_>, count: u64) -> bool
    ensures taken { IsTrue result → UsesBegin count (words_of words.old) (uses_in count (words_of words.old)) (words_of words.new) }
    ensures missing { IsFalse result → (uses : List (ℕ × ℕ)) (after : List (List ℕ)) → UsesBegin count (words_of words.old) uses after → ⊥ }
{
    let mut left = count;
    'uses: while left > 0 {
        let Some(_one) = next_use(words) else {
            return false;
        };
        left -= 1;
    }
    true
}

// Takes the words of a dual bound, its divisor and its uses, which are lent from them. On None some
// may be taken.
pub fn next_use_dual<'a>(words: &mut TokenWalk<'a>) -> Option<(u64, Uses<'a>)>
    ensures some { IfSome result (λ dual. UseDualBegins (words_of words.old) dual.0 dual.1 (words_of words.new)) }
    ensures none { IfNone result ((divisor : ℕ) (uses : List (ℕ × ℕ)) (after : List (List ℕ)) → UseDualBegins (words_of words.old) divisor uses after → ⊥) }
{
    let Some(divisor) = next_number(words) else {
        return None;
    };
    let Some(count) = next_number(words) else {
        return None;
    };
    let spelled = words.rest();
    if take_uses(words, count) {
        Some((divisor, Uses::of(count, spelled)))
    } else {
        None
    }
}
