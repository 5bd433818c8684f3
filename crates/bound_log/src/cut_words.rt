//! The words of numbers and of cuts, taken from the front of a walk.
ghost use Rattle.std.specs.Prelude.{◌≡◌, ℕ, ℤ, List, ◌∷◌, IfSome, IfNone, IsTrue, IsFalse};
ghost use Rattle.bound_log.specs.CutReading.{CutBegins, PairBegins, PairsBegin, pairs_in};
ghost use Rattle.bound_log.specs.CutText.{CutTextOf};
ghost use Rattle.lent_parts.specs.Pieces.{words_of};
ghost use Rattle.bound_log.specs.Numbers.{IsNumberText, IsSigned};

use crate::number::{read_number, read_signed};
use lent_parts::TokenWalk;

// Takes the next word, which has to be a number.
pub fn next_number(words: &mut TokenWalk<'_>) -> Option<u64>
    ensures some { IfSome result (λ number. (text : List ℕ) × IsNumberText text number × (words_of words.old ≡ text ∷ words_of words.new)) }
    ensures none { IfNone result ((text : List ℕ) (after : List (List ℕ)) (number : ℕ) → words_of words.old ≡ text ∷ after → IsNumberText text number → ⊥) }
{
    match words.next() {
        Some(word) => read_number(word.text),
        None => None,
    }
}

// Takes the next word, which has to be a number with its sign.
fn next_signed(words: &mut TokenWalk<'_>) -> Option<i128>
    ensures some { IfSome result (λ value. (text : List ℕ) × IsSigned text value × (words_of words.old ≡ text ∷ words_of words.new)) }
    ensures none { IfNone result ((text : List ℕ) (after : List (List ℕ)) (value : ℤ) → words_of words.old ≡ text ∷ after → IsSigned text value → ⊥) }
{
    match words.next() {
        Some(word) => read_signed(word.text),
        None => None,
    }
}

// Takes the next two words, which have to be those of a pair. On None some may be taken.
pub fn next_pair(words: &mut TokenWalk<'_>) -> Option<(u64, i128)>
    ensures some { IfSome result (λ pair. PairBegins (words_of words.old) pair (words_of words.new)) }
    ensures none { IfNone result ((pair : ℕ × ℤ) (after : List (List ℕ)) → PairBegins (words_of words.old) pair after → ⊥) }
{
    let Some(unknown) = next_number(words) else {
        return None;
    };
    match next_signed(words) {
        Some(by) => Some((unknown, by)),
        None => None,
    }
}

// Takes the words of so many pairs, and answers whether they were there.
pub fn take_pairs(words: &mut TokenWalk<'_>, count: u64) -> bool
    ensures taken { IsTrue result → PairsBegin count (words_of words.old) (pairs_in count (words_of words.old)) (words_of words.new) }
    ensures missing { IsFalse result → (pairs : List (ℕ × ℤ)) (after : List (List ℕ)) → PairsBegin count (words_of words.old) pairs after → ⊥ }
{
    let mut left = count;
    'pairs: while left > 0 {
        let Some(_pair) = next_pair(words) else {
            return false;
        };
        left -= 1;
    }
    true
}
