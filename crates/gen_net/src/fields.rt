//! Fields of a table, appended to its text.
ghost use Rattle.std.specs.Prelude.{◌≡◌, ◌++◌, OnOk};
ghost use Rattle.gen_net.specs.Fields.{field as a_field, label, metres, tenths};

use geo_base::NoMemory;
use text_num::{put_decimal, put_whole};

/// Appends a field and the comma after it.
pub fn put_field(text: &mut Vec<u8>, field: &[u8]) -> Result<(), NoMemory>
    ensures { OnOk result (text.new.items ≡ text.old.items ++ a_field field.now) }
{
    text.extend_from_slice(field)?;
    text.extend_from_slice(b",")?;
    Ok(())
}

/// Appends millimetres as a field in metres.
pub fn put_metres(text: &mut Vec<u8>, mm: u32) -> Result<(), NoMemory>
    ensures { OnOk result (text.new.items ≡ text.old.items ++ a_field (metres mm)) }
{
    put_decimal(text, i64::from(mm), 3)?;
    text.extend_from_slice(b",")?;
    Ok(())
}

/// Appends tenths of a millimetre as millimetres.
pub fn put_tenths(text: &mut Vec<u8>, count: u32) -> Result<(), NoMemory>
    ensures { OnOk result (text.new.items ≡ text.old.items ++ tenths count) }
{
    put_decimal(text, i64::from(count), 1)
}

/// Appends a field of a letter and a number.
#[tactic(auto, unfolding(text_num::specs::Whole::whole_text))]
pub fn put_label(text: &mut Vec<u8>, letter: &[u8], number: u32) -> Result<(), NoMemory>
    ensures { OnOk result (text.new.items ≡ text.old.items ++ a_field (label letter.now number)) }
{
    text.extend_from_slice(letter)?;
    put_whole(text, i128::from(number))?;
    text.extend_from_slice(b",")?;
    Ok(())
}
