ghost use Rattle.std.specs.Prelude.{◌≡◌};
ghost use Rattle.lent_parts.specs.Pieces.{tokens_of};

use crate::pieces::split_first_piece;
use std::marker::Model;

/// A token of a line: its bytes, and the place in the line at which they start.
#[derive(Clone, Copy, Debug, PartialEq, Eq)]
pub struct Token<'a> {
    pub text: &'a [u8],
    pub start: u64,
}

/// The tokens of a line that are left. Contracts see it as their list.
#[derive(Debug, Drop)]
pub struct TokenWalk<'a> {
    rest: Option<&'a [u8]>,
    start: u64,
}

impl<'a> Model for TokenWalk<'a> {
    ghost use Rattle.std.specs.Prelude.{List, [], ◌+◌, ◌^◌, ◌≤◌, length};
    ghost use Rattle.std.specs.Option.{ForSome, option_map_or};
    ghost use Rattle.lent_parts.specs.Pieces.{TokenOf, tokens_from};

    ghost Value = { List TokenOf };

    ghost view = { λ walk. option_map_or (λ rest. tokens_from walk.start rest.now) walk.rest [] };

    ghost invariant = { λ walk. ForSome walk.rest (λ rest. walk.start + length rest.now ≤ 2 ^ 63) };
}

impl<'a> Iterator for TokenWalk<'a> {
    ghost use Rattle.std.specs.Iterator.{YieldsFirstBy, item_count};
    ghost use Rattle.lent_parts.specs.Walks.{token_of};

    type Item = Token<'a>;

    ghost next_gives = { YieldsFirstBy token_of (λ walk. walk) };

    ghost remaining = { item_count (λ walk. walk) };

    fn next(&mut self) -> Option<Token<'a>> {
        let rest = self.rest?;
        let start = self.start;
        let (text, after) = split_first_piece(rest, b' ');
        self.rest = after;
        self.start = start + text.len() as u64 + 1;
        Some(Token { text, start })
    }
}

impl<'a> TokenWalk<'a> {
    ghost use Rattle.std.specs.Prelude.{◌≡◌, [], map};
    ghost use Rattle.std.specs.List.{slice_split};
    ghost use Rattle.lent_parts.specs.Pieces.{is_space};

    /// The text of the tokens that are left, with a space between each two, lent from the line. It is
    /// empty where no token is left.
    pub fn rest(&self) -> &'a [u8]
        ensures some { (self.now ≡ [] → ⊥) → map (λ token. token.text) self.now ≡ slice_split is_space result.now }
        ensures none { self.now ≡ [] → result.now ≡ [] }
    {
        match self.rest {
            Some(rest) => rest,
            None => b"".as_slice(),
        }
    }
}

/// The tokens of a line: its pieces between single spaces, in order, each lent from the line. A piece
/// may be empty, and an empty line has one token, which is empty. It takes no memory.
pub fn tokens(line: &[u8]) -> TokenWalk<'_>
    ensures { result ≡ tokens_of line.now }
{
    TokenWalk {
        rest: Some(line),
        start: 0,
    }
}
