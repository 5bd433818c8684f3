ghost use Rattle.std.specs.Prelude.{◌≡◌};
ghost use Rattle.table_rows.specs.FieldText.{field_text, without_back_spaces, without_front_spaces, IsTextOf};

// The bytes from the first one on that is no space.
fn after_spaces(field: &[u8]) -> &[u8]
    ensures { result.now ≡ without_front_spaces field.now }
{
    let mut start = 0;
    while start < field.len() && field[start] == b' ' {
        start += 1;
    }
    &field[start..]
}

// The bytes up to the last one that is no space.
fn before_spaces(field: &[u8]) -> &[u8]
    ensures { result.now ≡ without_back_spaces field.now }
{
    let mut end = field.len();
    while end > 0 && field[end - 1] == b' ' {
        end -= 1;
    }
    &field[..end]
}

/// The text of a field: its bytes without the spaces (20 hexadecimal) at either end.
pub fn text_of(field: &[u8]) -> &[u8]
    ensures value { result.now ≡ field_text field.now }
    ensures meaning { IsTextOf field.now result.now }
{
    before_spaces(after_spaces(field))
}
