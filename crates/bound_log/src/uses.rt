ghost use Rattle.std.specs.Prelude.{◌≡◌};

use crate::next_uses::next_use;
use lent_parts::{TokenWalk, tokens};
use std::marker::Model;

/// The shares of a dual bound as a line of format 2 spells them, lent from the line: each a
/// multiplier and the number of a cut. Contracts see them as a list of these, as they stand in the
/// line, in their ranges or not.
#[derive(Debug, Drop)]
pub struct Uses<'a> {
    count: u64,
    spelled: &'a [u8],
}

impl<'a> Model for Uses<'a> {
    ghost use Rattle.std.specs.Prelude.{ℕ, List};
    ghost use Rattle.bound_log.specs.UseReading.{CanReadUses, uses_in};
    ghost use Rattle.bound_log.specs.Reading.{words_in};

    ghost Value = { List (ℕ × ℕ) };

    ghost view = { λ uses. uses_in uses.count (words_in uses.spelled.now) };

    ghost invariant = { λ uses. CanReadUses uses.count (words_in uses.spelled.now) };
}

impl<'a> Uses<'a> {
    ghost use Rattle.std.specs.Prelude.{◌≡◌, length};
    ghost use Rattle.bound_log.specs.UseReading.{CanReadUses, uses_in};
    ghost use Rattle.bound_log.specs.Reading.{words_in};

    /// So many uses, of which this is the text.
    pub(crate) fn of(count: u64, spelled: &'a [u8]) -> Uses<'a>
        requires { CanReadUses count (words_in spelled.now) }
        ensures { result ≡ uses_in count (words_in spelled.now) }
    {
        Uses { count, spelled }
    }

    /// How many uses there are.
    pub fn count(&self) -> u64
        ensures { result ≡ length self.now }
    {
        self.count
    }

    /// The uses, each a multiplier and the number of a cut, in the order of the line. It takes no
    /// memory.
    pub fn pairs(&self) -> UsePairs<'a>
        ensures { result ≡ self.now }
    {
        UsePairs {
            left: self.count,
            words: tokens(self.spelled),
        }
    }
}

/// The uses that are left. Contracts see it as their list. That they can be read is its invariant.
#[derive(Debug, Drop)]
pub struct UsePairs<'a> {
    left: u64,
    words: TokenWalk<'a>,
}

impl<'a> Model for UsePairs<'a> {
    ghost use Rattle.std.specs.Prelude.{ℕ, List};
    ghost use Rattle.bound_log.specs.UseReading.{CanReadUses, uses_in};
    ghost use Rattle.lent_parts.specs.Pieces.{words_of};

    ghost Value = { List (ℕ × ℕ) };

    ghost view = { λ uses. uses_in uses.left (words_of uses.words) };

    ghost invariant = { λ uses. CanReadUses uses.left (words_of uses.words) };
}

impl<'a> Iterator for UsePairs<'a> {
    ghost use Rattle.std.specs.Iterator.{YieldsFirst, item_count};

    type Item = (u64, u64);

    ghost next_gives = { YieldsFirst (λ uses. uses) };

    ghost remaining = { item_count (λ uses. uses) };

    fn next(&mut self) -> Option<(u64, u64)> {
        if self.left == 0 {
            return None;
        }
        self.left -= 1;
        next_use(&mut self.words)
    }
}
