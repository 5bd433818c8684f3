//! Reading the lines of a log, from lent tokens.
ghost use Rattle.std.specs.Prelude.{ℕ, List, IfSome, IfNone};
ghost use Rattle.bound_log.specs.Grammar.{IsLine};
ghost use Rattle.bound_log.specs.LogLines.{WordsBeginWith, words_of};
ghost use Rattle.bound_log.specs.declared.log_line.LogLine.{LogLine as LineOf};

use crate::cut_words::next_number;
use crate::log_leaf::LogLeaf;
use crate::log_line::LogLine;
use crate::next_cut::next_cut;
use crate::next_dual::next_dual;
use lent_parts::{TokenWalk, tokens};

/// Reads a line of a log, which is given without its LF. None exactly outside the grammar: `s C`,
/// `c`, `p L`, `x L M` and M pairs `I V`, or `d D R` and R shares `Y L M` with M pairs each; with
/// one space between two words, where a number is `0`, or a digit from 1 to 9 followed by at most
/// 18 digits, and V is one with `-` before it or not, but not `-0`. It takes no memory.
pub fn read_line(line: &[u8]) -> Option<LogLine<'_>>
    ensures some { IfSome result (λ read. IsLine line.now read) }
    ensures none { IfNone result ((other : LineOf) → IsLine line.now other → ⊥) }
{
    let mut words = tokens(line);
    let Some(read) = read_words(&mut words) else {
        return None;
    };
    match words.next() {
        None => Some(read),
        Some(_) => None,
    }
}

// Reads the words of a line from the front. On None some may be taken.
fn read_words<'a>(words: &mut TokenWalk<'a>) -> Option<LogLine<'a>>
    ensures some { IfSome result (λ read. WordsBeginWith (words_of words.old) read (words_of words.new)) }
    ensures none { IfNone result ((other : LineOf) (after : List (List ℕ)) → WordsBeginWith (words_of words.old) other after → ⊥) }
{
    let Some(kind) = words.next() else {
        return None;
    };
    if kind.text == b"c".as_slice() {
        Some(LogLine::Leaf(LogLeaf::Cost))
    } else if kind.text == b"s".as_slice() {
        match next_number(words) {
            Some(candidate) => Some(LogLine::Split(candidate)),
            None => None,
        }
    } else if kind.text == b"p".as_slice() {
        match next_number(words) {
            Some(limit) => Some(LogLine::Leaf(LogLeaf::Pivot(limit))),
            None => None,
        }
    } else if kind.text == b"x".as_slice() {
        match next_cut(words) {
            Some(cut) => Some(LogLine::Leaf(LogLeaf::Cut(cut))),
            None => None,
        }
    } else if kind.text == b"d".as_slice() {
        match next_dual(words) {
            Some((divisor, shares)) => Some(LogLine::Leaf(LogLeaf::Dual(divisor, shares))),
            None => None,
        }
    } else {
        None
    }
}
