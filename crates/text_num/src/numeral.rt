ghost use Rattle.std.specs.Prelude.{◌≡◌, ◌^◌, ◌<◌, ◌≤◌, length, IfSome, IfNone, IsTrue};
ghost use Rattle.std.specs.Char.{is_ascii_digit};
ghost use Rattle.std.specs.List.{list_all};
ghost use Rattle.std.specs.Str.Parse.{digits_value};
ghost use Rattle.text_num.specs.Decimal.{IsNumeralUpTo};
ghost use Rattle.text_num.specs.Digits.{digits_of, is_digits};

/// The whole number that 1 to `most` digits write, where `most` is at most 19. None for any other
/// text.
pub fn read_digits(text: &[u8], most: u32) -> Option<u64>
    requires { most ≤ 19 }
    ensures value { result ≡ digits_of most text.now }
    ensures read { IfSome result (λ value. IsNumeralUpTo most text.now × (value ≡ digits_value 10 text.now)) }
    ensures none { IfNone result (¬ IsNumeralUpTo most text.now) }
    ensures small { IfSome result (λ value. value < 10 ^ most) }
{
    if !is_digits(text, most) {
        return None;
    }
    Some(number(text))
}

// Whether the text is 1 to `most` digits.
#[tactic(auto, using(crate::proofs::Numerals::digit_tests))]
fn is_digits(text: &[u8], most: u32) -> bool
    ensures { result ≡ is_digits most text.now }
{
    if text.is_empty() || text.len() > most as usize {
        return false;
    }
    is_all_digits(text)
}

// Whether each byte is a digit.
pub(crate) fn is_all_digits(text: &[u8]) -> bool
    ensures { result ≡ list_all is_ascii_digit text.now }
{
    text.iter().all(|c| c.is_ascii_digit())
}

// The number that at most 19 digits write.
pub(crate) fn number(digits: &[u8]) -> u64
    requires form { IsTrue (list_all is_ascii_digit digits.now) }
    requires few { length digits.now ≤ 19 }
    ensures value { result ≡ digits_value 10 digits.now }
    ensures size { result < 10 ^ length digits.now }
{
    let mut sum = 0;
    for c in digits {
        sum = sum * 10 + u64::from(*c - b'0');
    }
    sum
}
