//! The order of keys.

ghost use Rattle.std.specs.Prelude.{IsTrue, ◌↔◌, option_map};
ghost use Rattle.dagcbor_items.specs.Places.{Follows};

/// Returns whether the key may come after the previous one.
#[inline(always)]
pub fn follows(previous: &Option<&[u8]>, key: &[u8]) -> bool
    ensures { IsTrue result ↔ Follows (option_map (λ s. s.now) previous.now) key.now }
{
    dagcbor_decode::follows(previous, key)
}
