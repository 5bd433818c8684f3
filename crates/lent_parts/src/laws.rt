//! What tokens and lines are to what they were cut from. Each function is its contract: it does
//! nothing.
ghost use Rattle.std.specs.Prelude.{◌≡◌, ℕ, ◌<◌, List, [], ◌∷◌, ◌++◌, length, map, flat_map, All, IsFalse};
ghost use Rattle.std.specs.List.{join_with_byte};
ghost use Rattle.lent_parts.specs.Pieces.{TextLineOf, is_line_feed, is_space, line_bytes, lines_of, space, tokens_of};
ghost use Rattle.lent_parts.specs.PieceLaws.{IsSliceOf};

/// Each token is the slice of its line at its start and has no space in it, and the tokens with a
/// space between each two are the line. No other pieces without a space are.
pub fn tokens_make_the_line()
    ensures slices { (line : List ℕ) → All (IsSliceOf line) (tokens_of line) }
    ensures joined { (line : List ℕ) → join_with_byte space (map (λ token. token.text) (tokens_of line)) ≡ line }
    ensures only { (line first : List ℕ) (rest : List (List ℕ)) → All (λ piece. All (λ c. IsFalse (is_space c)) piece) (first ∷ rest) → line ≡ join_with_byte space (first ∷ rest) → map (λ token. token.text) (tokens_of line) ≡ first ∷ rest }
{}

/// The lines with their LFs are the text. No line has LF in it, and only a last line that isn't
/// empty may lack its own.
pub fn lines_make_the_text()
    ensures joined { (text : List ℕ) → flat_map line_bytes (lines_of text) ≡ text }
    ensures cut { (text : List ℕ) → All (λ line. All (λ c. IsFalse (is_line_feed c)) line.text) (lines_of text) }
    ensures unended { (text : List ℕ) (front rest : List TextLineOf) (line : TextLineOf) → lines_of text ≡ front ++ line ∷ rest → IsFalse line.ended → (rest ≡ []) × (0 < length line.text) }
{}
