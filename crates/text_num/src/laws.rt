ghost use Rattle.std.specs.Prelude.{◌≡◌, ℕ, ℤ, List, ◌+◌, ◌^◌, ◌<◌, ◌≤◌, Some, unsigned_abs, All};
ghost use Rattle.text_num.specs.Decimal.{IsDecimal, decimal_of};
ghost use Rattle.text_num.specs.DecimalText.{decimal_text};
ghost use Rattle.text_num.specs.Whole.{IsDigitOrMinus, whole_text};

/// The value of a text as a function is the grammar, in both directions.
pub fn decimals_are_the_grammar()
    ensures sound { (places : ℕ) (text : List ℕ) (value : ℤ) → decimal_of places text ≡ Some value → IsDecimal places text value }
    ensures complete { (places : ℕ) (text : List ℕ) (value : ℤ) → IsDecimal places text value → decimal_of places text ≡ Some value }
{}

/// What is written is read again, where its whole part has at most 12 digits.
pub fn written_decimals_are_read()
    ensures { (value : ℤ) (places : ℕ) → places ≤ 3 → unsigned_abs value < 10 ^ (12 + places) → decimal_of places (decimal_text value places) ≡ Some value }
{}

/// The texts of two whole numbers differ, and have no byte but digits and `-`.
pub fn whole_texts_are_apart()
    ensures apart { (y z : ℤ) → unsigned_abs y < 2 ^ 128 → unsigned_abs z < 2 ^ 128 → whole_text y ≡ whole_text z → y ≡ z }
    ensures bytes { (z : ℤ) → unsigned_abs z < 2 ^ 128 → All IsDigitOrMinus (whole_text z) }
{}
