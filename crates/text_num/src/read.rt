ghost use Rattle.std.specs.Prelude.{◌≡◌, ℤ, ◌+◌, ◌^◌, ◌<◌, ◌≤◌, IfSome, IfNone, ◌==◌, pos, neg_ℤ, unsigned_abs};
ghost use Rattle.std.specs.List.{list_all};
ghost use Rattle.std.specs.Option.{ForSome, option_map};
ghost use Rattle.text_num.specs.Decimal.{IsDecimal, decimal_of, digit_count, fraction_of, is_fraction, unsigned_of};

use crate::numeral::{is_all_digits, number};
use crate::power::power_of_ten;

/// The value of a decimal number times `10^places`: an optional sign, 1 to 12 digits, and
/// optionally a point and 1 to 20 digits, of which those past the first `places` are 0.
/// None for any other text.
pub fn read_decimal(text: &[u8], places: u32) -> Option<i64>
    requires { places ≤ 3 }
    ensures value { result ≡ decimal_of places text.now }
    ensures read { IfSome result (λ value. IsDecimal places text.now value) }
    ensures none { IfNone result ((value : ℤ) → ¬ IsDecimal places text.now value) }
    ensures size { IfSome result (λ value. unsigned_abs value < 10 ^ (12 + places)) }
{
    let Some((first, rest)) = text.split_first() else {
        return None;
    };
    if *first == b'-' {
        negated(read_unsigned(rest, places))
    } else if *first == b'+' {
        signed(read_unsigned(rest, places))
    } else {
        signed(read_unsigned(text, places))
    }
}

fn signed(size: Option<u64>) -> Option<i64>
    requires { ForSome size (λ n. n < 2 ^ 63) }
    ensures { result ≡ option_map pos size }
{
    match size {
        Some(n) => Some(n as i64),
        None => None,
    }
}

fn negated(size: Option<u64>) -> Option<i64>
    requires { ForSome size (λ n. n < 2 ^ 63) }
    ensures { result ≡ option_map (λ n. neg_ℤ (pos n)) size }
{
    match size {
        Some(n) => Some(0 - n as i64),
        None => None,
    }
}

// The value of a text without a sign.
fn read_unsigned(text: &[u8], places: u32) -> Option<u64>
    requires { places ≤ 3 }
    ensures { result ≡ unsigned_of places text.now }
{
    let count = leading_digits(text);
    if count < 1 || 12 < count {
        return None;
    }
    let whole = number(&text[..count]) * power_of_ten(places);
    match read_fraction(&text[count..], places) {
        Some(fraction) => Some(whole + fraction),
        None => None,
    }
}

// How many digits the text begins with.
fn leading_digits(text: &[u8]) -> usize
    ensures { result ≡ digit_count text.now }
{
    text.iter().take_while(|c| c.is_ascii_digit()).count()
}

// What follows the digits of the whole part, in units of the last place.
fn read_fraction(text: &[u8], places: u32) -> Option<u64>
    requires { places ≤ 3 }
    ensures { result ≡ fraction_of places text.now }
{
    let Some((first, digits)) = text.split_first() else {
        return Some(0);
    };
    if *first != b'.' || !has_fraction_form(digits, places) {
        return None;
    }
    let kept = digits.len().min(places as usize);
    Some(number(&digits[..kept]) * power_of_ten(places - kept as u32))
}

// Whether the text is 1 to 20 digits, of which those past the first `places` are 0.
fn has_fraction_form(digits: &[u8], places: u32) -> bool
    ensures { result ≡ is_fraction places digits.now }
{
    if digits.is_empty() || 20 < digits.len() || !is_all_digits(digits) {
        return false;
    }
    let kept = digits.len().min(places as usize);
    is_all_zeros(&digits[kept..])
}

fn is_all_zeros(text: &[u8]) -> bool
    ensures { result ≡ list_all (λ c. c == 48) text.now }
{
    text.iter().all(|c| *c == b'0')
}
