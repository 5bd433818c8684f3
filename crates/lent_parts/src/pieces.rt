ghost use Rattle.std.specs.Prelude.{◌≡◌, ◌+◌, ◌==◌, ◌∷◌, [], length, None};
ghost use Rattle.std.specs.List.{slice_split};
ghost use Rattle.std.specs.Option.{ForSome, option_map_or};

// The bytes before the first `byte`, and those after it where there is one.
pub fn split_first_piece(text: &[u8], byte: u8) -> (&[u8], Option<&[u8]>)
    ensures pieces { slice_split (λ c. c == byte) text.now ≡ result.0.now ∷ option_map_or (λ rest. slice_split (λ c. c == byte) rest.now) result.1 [] }
    ensures shorter { ForSome result.1 (λ rest. length result.0.now + 1 + length rest.now ≡ length text.now) }
    ensures none { result.1 ≡ None → result.0.now ≡ text.now }
{
    match text.iter().position(|c| *c == byte) {
        Some(at) => (&text[..at], Some(&text[at + 1..])),
        None => (text, None),
    }
}
