ghost use Rattle.std.specs.Prelude.{◌≡◌, ◌++◌, ◌^◌, ◌≤◌, OnOk, OnErr, take, length};
ghost use Rattle.text_num.specs.DecimalText.{decimal_text, last_digits};

use crate::power::power_of_ten;
use geo_base::NoMemory;
use itoa::Buffer;

/// Appends `value` units of the last of `places` places: `-` where it is negative, the whole
/// part without a leading zero, and for `places` above 0 a point and exactly `places` digits.
/// On an error `out` is as it was.
pub fn put_decimal(out: &mut Vec<u8>, value: i64, places: u32) -> Result<(), NoMemory>
    requires { places ≤ 3 }
    ensures ok { OnOk result (out.new.items ≡ out.old.items ++ decimal_text value places) }
    ensures err { OnErr result (out.new.items ≡ out.old.items) }
{
    let start = out.len();
    let done = put_parts(out, value, places);
    if done.is_err() {
        out.truncate(start);
    }
    done
}

// The same, but on an error a part of the text may stand in `out`.
fn put_parts(out: &mut Vec<u8>, value: i64, places: u32) -> Result<(), NoMemory>
    requires { places ≤ 3 }
    ensures ok { OnOk result (out.new.items ≡ out.old.items ++ decimal_text value places) }
    ensures err { OnErr result (take (length out.old.items) out.new.items ≡ out.old.items) }
{
    if value < 0 {
        out.push(b'-')?;
    }
    let mut digits = Buffer::new();
    let size = value.unsigned_abs();
    out.extend_from_slice(digits.format(size / power_of_ten(places)).as_bytes())?;
    if 0 < places {
        out.push(b'.')?;
    }
    put_last_digits(out, size, places)
}

// Appends the last `places` digits of `n`. On an error some of them may stand in `out`.
fn put_last_digits(out: &mut Vec<u8>, n: u64, places: u32) -> Result<(), NoMemory>
    requires { places ≤ 3 }
    ensures ok { OnOk result (out.new.items ≡ out.old.items ++ last_digits places n) }
    ensures err { OnErr result (take (length out.old.items) out.new.items ≡ out.old.items) }
{
    if places == 0 {
        return Ok(());
    }
    out.push(b'0' + (n / power_of_ten(places - 1) % 10) as u8)?;
    put_last_digits(out, n, places - 1)
}
