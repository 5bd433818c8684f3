//! What the grammar of lines says. Each function is its contract: it does nothing.
ghost use Rattle.std.specs.Prelude.{◌≡◌, ℕ, List, ◌++◌, All, map};
ghost use Rattle.std.specs.Str.Parse.{digits_value};
ghost use Rattle.lent_parts.specs.Pieces.{lines_of};
ghost use Rattle.bound_log.specs.Grammar.{HasNumbersBelow, IsLine, IsNumberText, IsShortNumeral, number_bound, text_line};
ghost use Rattle.bound_log.specs.LogText.{line_body, line_end, line_text, lines_text};
ghost use Rattle.bound_log.specs.declared.log_line.LogLine.{LogLine as LineOf};

/// The texts of numbers are `0`, and a digit from 1 to 9 followed by at most 18 digits.
pub fn numbers_are_numerals()
    ensures numeral { (text : List ℕ) (number : ℕ) → IsNumberText text number → IsShortNumeral text × (number ≡ digits_value 10 text) }
    ensures number { (text : List ℕ) → IsShortNumeral text → IsNumberText text (digits_value 10 text) }
{}

/// A text is that of at most one line.
pub fn a_text_is_one_line()
    ensures { (text : List ℕ) (a b : LineOf) → IsLine text a → IsLine text b → a ≡ b }
{}

/// What a call that puts a line of numbers of at most 19 digits appends is in the grammar, without
/// its LF, as the same line; and such lines one after another are cut into these lines.
pub fn written_lines_are_read()
    ensures ended { (line : LineOf) → line_text line ≡ line_body line ++ line_end }
    ensures read { (line : LineOf) → HasNumbersBelow number_bound line → IsLine (line_body line) line }
    ensures cut { (lines : List LineOf) → All (HasNumbersBelow number_bound) lines → lines_of (lines_text lines) ≡ map text_line lines }
{}
