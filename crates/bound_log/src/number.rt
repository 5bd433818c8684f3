ghost use Rattle.std.specs.Prelude.{◌≡◌, ℕ, ℤ, ◌<◌, ◌↔◌, length, get_or, ◌∷◌, IfSome, IfNone, IsTrue};
ghost use Rattle.bound_log.specs.Numbers.{IsNumberText, IsSigned};

use text_num::read_digits;

// The number that the text writes: `0`, or a digit from 1 to 9 followed by at most 18 digits.
pub fn read_number(text: &[u8]) -> Option<u64>
    ensures some { IfSome result (λ number. IsNumberText text.now number) }
    ensures none { IfNone result ((number : ℕ) → IsNumberText text.now number → ⊥) }
{
    if has_leading_zero(text) {
        return None;
    }
    read_digits(text, 19)
}

// The number that the text writes, with `-` before it where it is negative.
pub fn read_signed(text: &[u8]) -> Option<i128>
    ensures some { IfSome result (λ value. IsSigned text.now value) }
    ensures none { IfNone result ((value : ℤ) → IsSigned text.now value → ⊥) }
{
    if has_minus(text) {
        return read_negative(&text[1..]);
    }
    match read_number(text) {
        Some(number) => Some(number as i128),
        None => None,
    }
}

// The number whose text without its `-` this is.
fn read_negative(digits: &[u8]) -> Option<i128>
    ensures some { IfSome result (λ value. IsSigned (45 ∷ digits.now) value) }
    ensures none { IfNone result ((value : ℤ) → IsSigned (45 ∷ digits.now) value → ⊥) }
{
    match read_number(digits) {
        Some(0) => None,
        Some(number) => Some(0 - number as i128),
        None => None,
    }
}

// Whether a `-` stands at the front.
fn has_minus(text: &[u8]) -> bool
    ensures { IsTrue result ↔ (0 < length text.now) × (get_or text.now 0 0 ≡ 45) }
{
    text.len() > 0 && text[0] == b'-'
}

// Whether a `0` stands before other bytes.
fn has_leading_zero(text: &[u8]) -> bool
    ensures { IsTrue result ↔ (1 < length text.now) × (get_or text.now 0 0 ≡ 48) }
{
    text.len() > 1 && text[0] == b'0'
}
