ghost use Rattle.std.specs.Prelude.{◌≡◌};

use crate::cut_text::CutText;
use crate::next_dual::next_share;
use lent_parts::{TokenWalk, tokens};
use std::marker::Model;

/// The shares of a dual bound as a line of a log spells them, lent from the line: each a multiplier
/// and a cut. Contracts see them as a list of these, as they stand in the line, in their ranges or
/// not.
#[derive(Debug, Drop)]
pub struct Shares<'a> {
    count: u64,
    spelled: &'a [u8],
}

impl<'a> Model for Shares<'a> {
    ghost use Rattle.std.specs.Prelude.{ℕ, List};
    ghost use Rattle.bound_log.specs.CutText.{CutTextOf};
    ghost use Rattle.bound_log.specs.DualReading.{CanReadShares, shares_in};
    ghost use Rattle.bound_log.specs.Reading.{words_in};

    ghost Value = { List (ℕ × CutTextOf) };

    ghost view = { λ shares. shares_in shares.count (words_in shares.spelled.now) };

    ghost invariant = { λ shares. CanReadShares shares.count (words_in shares.spelled.now) };
}

impl<'a> Shares<'a> {
    ghost use Rattle.std.specs.Prelude.{◌≡◌, length};
    ghost use Rattle.bound_log.specs.DualReading.{CanReadShares, shares_in};
    ghost use Rattle.bound_log.specs.Reading.{words_in};

    /// So many shares, of which this is the text.
    pub(crate) fn of(count: u64, spelled: &'a [u8]) -> Shares<'a>
        requires { CanReadShares count (words_in spelled.now) }
        ensures { result ≡ shares_in count (words_in spelled.now) }
    {
        Shares { count, spelled }
    }

    /// How many shares there are.
    pub fn count(&self) -> u64
        ensures { result ≡ length self.now }
    {
        self.count
    }

    /// The shares, each a multiplier and a cut, in the order of the line. It takes no memory.
    pub fn shares(&self) -> ShareTexts<'a>
        ensures { result ≡ self.now }
    {
        ShareTexts {
            left: self.count,
            words: tokens(self.spelled),
        }
    }
}

/// The shares of a dual bound that are left. Contracts see it as their list. That they can be read
/// is its invariant.
#[derive(Debug, Drop)]
pub struct ShareTexts<'a> {
    left: u64,
    words: TokenWalk<'a>,
}

impl<'a> Model for ShareTexts<'a> {
    ghost use Rattle.std.specs.Prelude.{ℕ, List};
    ghost use Rattle.bound_log.specs.CutText.{CutTextOf};
    ghost use Rattle.bound_log.specs.DualReading.{CanReadShares, shares_in};
    ghost use Rattle.lent_parts.specs.Pieces.{words_of};

    ghost Value = { List (ℕ × CutTextOf) };

    ghost view = { λ shares. shares_in shares.left (words_of shares.words) };

    ghost invariant = { λ shares. CanReadShares shares.left (words_of shares.words) };
}

impl<'a> Iterator for ShareTexts<'a> {
    ghost use Rattle.std.specs.Iterator.{YieldsFirst, item_count};

    type Item = (u64, CutText<'a>);

    ghost next_gives = { YieldsFirst (λ shares. shares) };

    ghost remaining = { item_count (λ shares. shares) };

    fn next(&mut self) -> Option<(u64, CutText<'a>)> {
        if self.left == 0 {
            return None;
        }
        self.left -= 1;
        next_share(&mut self.words)
    }
}
