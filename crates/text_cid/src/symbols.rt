//! The symbols of a base.

ghost use Rattle.std.specs.Prelude.{◌≡◌, ◌<◌, ◌≤◌, [], ◌∷◌, length, slice_index, MatchOption};
ghost use Rattle.text_cid.specs.Alphabets.{IsNoSymbol};

/// Returns the index of the symbol, or `None` if it is not in the alphabet.
pub fn place_of(symbols: &[u8], symbol: u8) -> Option<u8>
    requires { length symbols.now ≤ 256 }
    ensures { MatchOption result (IsNoSymbol symbols.now symbol)
        (λ v. (v < length symbols.now) × (slice_index symbols.now v ≡ symbol)) }
{
    for place in 0..symbols.len() {
        if symbols[place] == symbol {
            return Some(place as u8);
        }
    }
    None
}

/// Splits the text into its first character and the others, or returns `None` if it is empty.
pub fn split_character(text: &[u8]) -> Option<(u8, &[u8])>
    ensures { MatchOption result (text.now ≡ []) (λ p. text.now ≡ p.0 ∷ p.1.now) }
{
    match text {
        [] => None,
        [first, rest @ ..] => Some((*first, rest)),
    }
}
