//! Numbers in a text.
ghost use Rattle.std.specs.Prelude.{◌≡◌, ◌++◌, OnOk};
ghost use Rattle.text_num.specs.Whole.{whole_text};

use geo_base::NoMemory;
use text_num::put_whole;

/// Appends the digits of a number, after `-` where it is negative.
pub fn put_number(text: &mut Vec<u8>, number: i64) -> Result<(), NoMemory>
    ensures { OnOk result (text.new.items ≡ text.old.items ++ whole_text number) }
{
    put_whole(text, i128::from(number))
}
