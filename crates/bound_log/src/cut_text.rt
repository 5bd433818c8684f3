ghost use Rattle.std.specs.Prelude.{◌≡◌};

use crate::cut_words::next_pair;
use lent_parts::{TokenWalk, tokens};
use std::marker::Model;

/// A cut as a line of a log spells it, lent from the line: the number of a limit, and each unknown
/// that a displacement moves, by its number, with how far. Contracts see it as a record of these,
/// as they stand in the line, in their ranges or not.
#[derive(Debug, Drop)]
pub struct CutText<'a> {
    limit: u64,
    count: u64,
    spelled: &'a [u8],
}

impl<'a> Model for CutText<'a> {
    ghost use Rattle.bound_log.specs.CutText.{CutTextOf};
    ghost use Rattle.bound_log.specs.CutReading.{CanRead, pairs_in};
    ghost use Rattle.bound_log.specs.Reading.{words_in};

    ghost Value = { CutTextOf };

    ghost view = { λ cut. record { limit = cut.limit; pairs = pairs_in cut.count (words_in cut.spelled.now) } };

    ghost invariant = { λ cut. CanRead cut.count (words_in cut.spelled.now) };
}

impl<'a> CutText<'a> {
    ghost use Rattle.std.specs.Prelude.{◌≡◌, length};
    ghost use Rattle.bound_log.specs.CutReading.{CanRead, pairs_in};
    ghost use Rattle.bound_log.specs.Reading.{words_in};

    /// The cut of a limit with so many pairs, of which this is the text.
    pub(crate) fn of(limit: u64, count: u64, spelled: &'a [u8]) -> CutText<'a>
        requires { CanRead count (words_in spelled.now) }
        ensures { result ≡ record { limit = limit; pairs = pairs_in count (words_in spelled.now) } }
    {
        CutText {
            limit,
            count,
            spelled,
        }
    }

    /// The number of the limit, counted from 0.
    pub fn limit(&self) -> u64
        ensures { result ≡ self.now.limit }
    {
        self.limit
    }

    /// How many unknowns the displacement moves.
    pub fn count(&self) -> u64
        ensures { result ≡ length self.now.pairs }
    {
        self.count
    }

    /// The unknowns that the displacement moves, by their numbers from 0, with how far, in the
    /// order of the line. It takes no memory.
    pub fn pairs(&self) -> Pairs<'a>
        ensures { result ≡ self.now.pairs }
    {
        Pairs {
            left: self.count,
            words: tokens(self.spelled),
        }
    }
}

/// The pairs of a cut that are left. Contracts see it as their list. That they can be read is its
/// invariant, so none is looked for twice.
#[derive(Debug, Drop)]
pub struct Pairs<'a> {
    left: u64,
    words: TokenWalk<'a>,
}

impl<'a> Model for Pairs<'a> {
    ghost use Rattle.std.specs.Prelude.{ℕ, ℤ, List};
    ghost use Rattle.bound_log.specs.CutReading.{CanRead, pairs_in};
    ghost use Rattle.lent_parts.specs.Pieces.{words_of};

    ghost Value = { List (ℕ × ℤ) };

    ghost view = { λ pairs. pairs_in pairs.left (words_of pairs.words) };

    ghost invariant = { λ pairs. CanRead pairs.left (words_of pairs.words) };
}

impl<'a> Iterator for Pairs<'a> {
    ghost use Rattle.std.specs.Iterator.{YieldsFirst, item_count};

    type Item = (u64, i128);

    ghost next_gives = { YieldsFirst (λ pairs. pairs) };

    ghost remaining = { item_count (λ pairs. pairs) };

    fn next(&mut self) -> Option<(u64, i128)> {
        if self.left == 0 {
            return None;
        }
        self.left -= 1;
        next_pair(&mut self.words)
    }
}
