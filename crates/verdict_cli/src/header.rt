//! The first line: four numbers with one space between each two.
ghost use Rattle.std.specs.Prelude.{◌≡◌, ◌≤◌, IfSome, IfNone, Some, None, [], ◌∷◌};
ghost use Rattle.lent_parts.specs.Pieces.{tokens_of};
ghost use Rattle.lent_parts.specs.Pieces.{words_of};
ghost use Rattle.verdict_cli.specs.Request.{header_of, number_in};

use lent_parts::tokens;
use text_num::read_decimal;

/// The most bytes of a table.
const MOST_BYTES: u32 = 1048576;

/// The largest redundancy limit, in thousandths.
const MOST_REDUNDANCY: u32 = 999;

/// How often a verdict may be reckoned at most.
const MOST_TIMES: u32 = 1000000;

/// What the first line says: the bytes of the points table and of the candidates table, the redundancy
/// limit in thousandths, and how often each verdict is reckoned: 0 where stacks of factors that follow
/// the plans are to give it.
#[derive(Clone, Copy, Debug, PartialEq, Eq)]
pub struct Header {
    pub points: u32,
    pub candidates: u32,
    pub redundancy: u32,
    pub times: u32,
}

/// Reads the first line, which is given without its LF. None where it isn't one.
pub fn read_header(line: &[u8]) -> Option<Header>
    ensures some { IfSome result (λ header. header_of line.now ≡ Some header) }
    ensures none { IfNone result (header_of line.now ≡ None) }
    ensures redundancy { IfSome result (λ header. header.redundancy ≤ 999) }
{
    let words = four_words(line)?;
    let points = read_number(words.points, 0, MOST_BYTES)?;
    let candidates = read_number(words.candidates, 0, MOST_BYTES)?;
    let redundancy = read_number(words.redundancy, 0, MOST_REDUNDANCY)?;
    let times = read_number(words.times, 0, MOST_TIMES)?;
    Some(Header {
        points,
        candidates,
        redundancy,
        times,
    })
}

// The four words of a first line.
#[derive(Clone, Copy, Debug)]
struct HeaderWords<'a> {
    points: &'a [u8],
    candidates: &'a [u8],
    redundancy: &'a [u8],
    times: &'a [u8],
}

// The words of a line that has four.
fn four_words(line: &[u8]) -> Option<HeaderWords<'_>>
    ensures some { IfSome result (λ words. words_of (tokens_of line.now) ≡ words.points.now ∷ words.candidates.now ∷ words.redundancy.now ∷ words.times.now ∷ []) }
    ensures none { IfNone result (header_of line.now ≡ None) }
{
    let mut words = tokens(line);
    let points = words.next()?;
    let candidates = words.next()?;
    let redundancy = words.next()?;
    let times = words.next()?;
    if words.next().is_some() {
        return None;
    }
    Some(HeaderWords {
        points: points.text,
        candidates: candidates.text,
        redundancy: redundancy.text,
        times: times.text,
    })
}

// The whole number that a word stands for, where it is within these bounds.
fn read_number(word: &[u8], least: u32, most: u32) -> Option<u32>
    ensures value { result ≡ number_in least most word.now }
    ensures most { IfSome result (λ number. number ≤ most) }
{
    let Some(value) = read_decimal(word, 0) else {
        return None;
    };
    if value < i64::from(least) || i64::from(most) < value {
        return None;
    }
    Some(value as u32)
}
