ghost use Rattle.std.specs.Prelude.{◌≡◌, ◌++◌, OnOk, OnErr};
ghost use Rattle.text_num.specs.Whole.{whole_text};

use geo_base::NoMemory;
use itoa::Buffer;

/// Appends the decimal digits of `value`, after `-` where it is negative.
/// On an error `out` is as it was.
pub fn put_whole(out: &mut Vec<u8>, value: i128) -> Result<(), NoMemory>
    ensures ok { OnOk result (out.new.items ≡ out.old.items ++ whole_text value) }
    ensures err { OnErr result (out.new.items ≡ out.old.items) }
{
    let mut digits = Buffer::new();
    out.extend_from_slice(digits.format(value).as_bytes())?;
    Ok(())
}
