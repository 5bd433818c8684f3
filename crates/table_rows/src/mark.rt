ghost use Rattle.std.specs.Prelude.{◌↔◌, IsTrue};
ghost use Rattle.table_rows.specs.Mark.{HasSecondMark};

/// Whether a text begins with two byte order marks: with one taken off, the rest begins with another.
pub fn has_second_mark(bytes: &[u8]) -> bool
    ensures { IsTrue result ↔ HasSecondMark bytes.now }
{
    matches!(bytes, [0xEF, 0xBB, 0xBF, 0xEF, 0xBB, 0xBF, ..])
}
