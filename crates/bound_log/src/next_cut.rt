ghost use Rattle.std.specs.Prelude.{ℕ, List, IfSome, IfNone};
ghost use Rattle.bound_log.specs.CutReading.{CutBegins};
ghost use Rattle.bound_log.specs.CutText.{CutTextOf};
ghost use Rattle.lent_parts.specs.Pieces.{words_of};

use crate::cut_text::CutText;
use crate::cut_words::{next_number, take_pairs};
use lent_parts::TokenWalk;

// Takes the words of a cut, which is lent from them. On None some may be taken.
pub fn next_cut<'a>(words: &mut TokenWalk<'a>) -> Option<CutText<'a>>
    ensures some { IfSome result (λ cut. CutBegins (words_of words.old) cut (words_of words.new)) }
    ensures none { IfNone result ((cut : CutTextOf) (after : List (List ℕ)) → CutBegins (words_of words.old) cut after → ⊥) }
{
    let Some(limit) = next_number(words) else {
        return None;
    };
    let Some(count) = next_number(words) else {
        return None;
    };
    let spelled = words.rest();
    if take_pairs(words, count) {
        Some(CutText::of(limit, count, spelled))
    } else {
        None
    }
}
