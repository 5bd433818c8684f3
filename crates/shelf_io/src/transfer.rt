ghost use Rattle.std.specs.Prelude.{◌≡◌, ℕ, ◌+◌, ◌^◌, ◌≤◌, ◌<◌, List, ◌++◌, length, take, IfOk, OnOk, IfSome, IsErrOf, IsTrue};
ghost use Rattle.std.specs.Bool.{OnFalse};
ghost use Rattle.std.specs.Io.KnownBytes.{Appends};

use crate::part_answer::PartAnswer;
use crate::read_answer::ReadAnswer;
use std::io::{Read, Write};

const BLOCK: usize = 4096;

/// Appends what the reader gives until it ends or `most` bytes came, and answers how many came. A refused
/// call may have appended some.
pub(crate) fn read_most<R: Read>(
    reader: &mut R,
    most: u64,
    into: &mut Vec<u8>,
) -> Result<u64, PartAnswer>
    requires { most ≤ 2 ^ 28 + 1 }
    ensures appends { (bytes : List ℕ) × (length bytes ≤ most) × (into.new.items ≡ into.old.items ++ bytes)
        × (IfOk result (λ count. length bytes ≡ count)) }
    ensures whole { OnOk result (IfSome (R.remaining reader.old)
        (λ bytes. into.new.items ≡ into.old.items ++ take most bytes)) }
{
    let mut block = [0u8; BLOCK];
    let mut room = most;
    while room > 0 {
        let some = if room < BLOCK as u64 {
            room as usize
        } else {
            BLOCK
        };
        let taken = match reader.read(&mut block[..some]) {
            Ok(taken) => taken,
            Err(_) => return Err(PartAnswer::Failed),
        };
        if taken == 0 {
            return Ok(most - room);
        }
        if into.extend_from_slice(&block[..taken]).is_err() {
            return Err(PartAnswer::NoMemory);
        }
        room -= taken as u64;
    }
    Ok(most)
}

/// Appends all that the reader gives, which it reads to `limit + 1` bytes at most. A refused call may have
/// appended some.
pub(crate) fn read_up_to<R: Read>(
    reader: &mut R,
    limit: u64,
    into: &mut Vec<u8>,
) -> Result<(), ReadAnswer>
    requires { limit ≤ 2 ^ 28 }
    ensures appends { (bytes : List ℕ) × (length bytes ≤ limit + 1) × (into.new.items ≡ into.old.items ++ bytes)
        × (OnOk result (length bytes ≤ limit)) }
    ensures whole { OnOk result (IfSome (R.remaining reader.old)
        (λ bytes. into.new.items ≡ into.old.items ++ bytes)) }
    ensures too_long { IsErrOf result ReadAnswer.TooLong → IfSome (R.remaining reader.old)
        (λ bytes. limit < length bytes) }
{
    match read_most(reader, limit + 1, into) {
        Ok(count) if count <= limit => Ok(()),
        Ok(_) => Err(ReadAnswer::TooLong),
        Err(PartAnswer::Failed) => Err(ReadAnswer::Failed),
        Err(PartAnswer::NoMemory) => Err(ReadAnswer::NoMemory),
    }
}

/// Writes the whole piece, and says whether that was done. It isn't where the writer takes nothing.
pub(crate) fn write_whole<W: Write>(writer: &mut W, piece: &[u8]) -> bool
    ensures written { IsTrue result → Appends (W.contents writer.old) (W.contents writer.new) piece.now }
    ensures stopped { OnFalse result ((n : ℕ)
        × Appends (W.contents writer.old) (W.contents writer.new) (take n piece.now)) }
{
    let mut rest = piece;
    while !rest.is_empty() {
        let taken = match writer.write(rest) {
            Ok(taken) => taken,
            Err(_) => return false,
        };
        if taken == 0 {
            return false;
        }
        rest = &rest[taken..];
    }
    true
}
