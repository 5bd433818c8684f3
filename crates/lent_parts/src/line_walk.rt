ghost use Rattle.std.specs.Prelude.{◌≡◌};
ghost use Rattle.lent_parts.specs.Pieces.{lines_of};

use crate::pieces::split_first_piece;
use std::marker::Model;

/// A line of a text: its bytes without LF, and whether LF ends it.
#[derive(Clone, Copy, Debug, PartialEq, Eq)]
pub struct Line<'a> {
    pub text: &'a [u8],
    pub ended: bool,
}

/// The lines of a text that are left. Contracts see it as their list.
#[derive(Debug, Drop)]
pub struct LineWalk<'a> {
    rest: &'a [u8],
}

impl<'a> Model for LineWalk<'a> {
    ghost use Rattle.std.specs.Prelude.{List};
    ghost use Rattle.lent_parts.specs.Pieces.{TextLineOf, lines_of};

    ghost Value = { List TextLineOf };

    ghost view = { λ walk. lines_of walk.rest.now };
}

impl<'a> Iterator for LineWalk<'a> {
    ghost use Rattle.std.specs.Iterator.{YieldsFirstBy, item_count};
    ghost use Rattle.lent_parts.specs.Walks.{line_of};

    type Item = Line<'a>;

    ghost next_gives = { YieldsFirstBy line_of (λ walk. walk) };

    ghost remaining = { item_count (λ walk. walk) };

    fn next(&mut self) -> Option<Line<'a>> {
        let rest = self.rest;
        if rest.is_empty() {
            return None;
        }
        let (text, after) = split_first_piece(rest, b'\n');
        match after {
            Some(after) => {
                self.rest = after;
                Some(Line { text, ended: true })
            }
            None => {
                self.rest = &rest[rest.len()..];
                Some(Line { text, ended: false })
            }
        }
    }
}

/// The lines of a text, cut at LF, in order, each lent from the text. Only a last piece without LF is
/// not `ended`, and an empty one isn't given. It takes no memory.
pub fn lines(text: &[u8]) -> LineWalk<'_>
    ensures { result ≡ lines_of text.now }
{
    LineWalk { rest: text }
}
