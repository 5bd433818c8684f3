//! Reading the lines of a log of format 2, from lent tokens.
ghost use Rattle.std.specs.Prelude.{ℕ, List, IfSome, IfNone};
ghost use Rattle.lent_parts.specs.Pieces.{words_of};
ghost use Rattle.bound_log.specs.NamedText.{IsNamedLine, NamedBegins};
ghost use Rattle.bound_log.specs.declared.named_line.NamedLine.{NamedLine as LineOf};

use crate::cut_words::next_number;
use crate::named_line::NamedLine;
use crate::next_cut::next_cut;
use crate::next_uses::next_use_dual;
use lent_parts::{TokenWalk, tokens};

/// Reads a line of a log of format 2, which is given without its LF. None exactly outside the
/// grammar: `s C`, `c`, `p L`, `k L M` and M pairs `I V`, `x J`, or `d D R` and R uses `Y J`; with
/// spaces and numbers as in `read_line`. It takes no memory.
pub fn read_line2(line: &[u8]) -> Option<NamedLine<'_>>
    ensures some { IfSome result (λ read. IsNamedLine line.now read) }
    ensures none { IfNone result ((other : LineOf) → IsNamedLine line.now other → ⊥) }
{
    let mut words = tokens(line);
    let Some(read) = read_named_words(&mut words) else {
        return None;
    };
    match words.next() {
        None => Some(read),
        Some(_) => None,
    }
}

// Reads the words of a line from the front. On None some may be taken.
fn read_named_words<'a>(words: &mut TokenWalk<'a>) -> Option<NamedLine<'a>>
    ensures some { IfSome result (λ read. NamedBegins (words_of words.old) read (words_of words.new)) }
    ensures none { IfNone result ((other : LineOf) (after : List (List ℕ)) → NamedBegins (words_of words.old) other after → ⊥) }
{
    let Some(kind) = words.next() else {
        return None;
    };
    if kind.text == b"c".as_slice() {
        Some(NamedLine::Cost)
    } else if kind.text == b"s".as_slice() {
        match next_number(words) {
            Some(candidate) => Some(NamedLine::Split(candidate)),
            None => None,
        }
    } else if kind.text == b"p".as_slice() {
        match next_number(words) {
            Some(limit) => Some(NamedLine::Pivot(limit)),
            None => None,
        }
    } else if kind.text == b"k".as_slice() {
        match next_cut(words) {
            Some(cut) => Some(NamedLine::Named(cut)),
            None => None,
        }
    } else if kind.text == b"x".as_slice() {
        match next_number(words) {
            Some(cut) => Some(NamedLine::UseCut(cut)),
            None => None,
        }
    } else if kind.text == b"d".as_slice() {
        match next_use_dual(words) {
            Some((divisor, uses)) => Some(NamedLine::UseDual(divisor, uses)),
            None => None,
        }
    } else {
        None
    }
}
