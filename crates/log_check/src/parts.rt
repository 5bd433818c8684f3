//! The lines of a text that is cut anywhere.
ghost use Rattle.std.specs.Prelude.{◌≡◌, ◌≤◌, ◌+◌, ◌++◌, false, length, All, vec_len, vec_capacity};
ghost use Rattle.lent_parts.specs.Pieces.{is_line_feed, line_bytes};
ghost use Rattle.lent_parts.specs.Walks.{line_of};
ghost use Rattle.log_check.specs.Fed.{IsSound, TakesPart};

use crate::judged::Judged;
use geo_model::Network;
use lent_parts::{Line, lines};

/// Takes one more piece of a text: judges each line that ends in it, as a slice of it where the
/// line lies in it whole, and keeps what has not ended. It takes no memory where there is room for
/// the piece.
pub fn take_piece(network: &Network, judged: &mut Judged, kept: &mut Vec<u8>, piece: &[u8])
    requires sound { IsSound network.now judged.old }
    requires space { vec_len kept.old + length piece.now ≤ vec_capacity kept.old }
    ensures sound { IsSound network.now judged.new }
    ensures taken { TakesPart network.now piece.now judged.old kept.old.items judged.new kept.new.items }
{
    let mut walk = lines(piece);
    while let Some(line) = walk.next() {
        take_part(network, judged, kept, line);
    }
}

// Takes the part of a line that stands in a piece.
fn take_part(network: &Network, judged: &mut Judged, kept: &mut Vec<u8>, line: Line<'_>)
    requires sound { IsSound network.now judged.old }
    requires space { vec_len kept.old + length line.text.now ≤ vec_capacity kept.old }
    requires lacks { All (λ c. is_line_feed c ≡ false) line.text.now }
    ensures sound { IsSound network.now judged.new }
    ensures taken { TakesPart network.now (line_bytes (line_of line.entry)) judged.old kept.old.items judged.new kept.new.items }
    ensures few { vec_len kept.new ≤ vec_len kept.old + length line.entry.text.now }
    ensures kept { vec_capacity kept.old ≤ vec_capacity kept.new }
{
    if line.ended && kept.is_empty() {
        judged.judge(network, line);
        return;
    }
    keep(kept, line.text);
    if line.ended {
        let text = kept.as_slice();
        judged.judge(network, Line { text, ended: true });
        kept.clear();
    }
}

// Keeps bytes for which there is room.
fn keep(kept: &mut Vec<u8>, bytes: &[u8])
    requires { vec_len kept.old + length bytes.now ≤ vec_capacity kept.old }
    ensures items { kept.new.items ≡ kept.old.items ++ bytes.now }
    ensures room { vec_capacity kept.old ≤ vec_capacity kept.new }
{
    let _kept = kept.extend_from_slice(bytes);
}
