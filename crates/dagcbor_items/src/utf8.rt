//! Tests whether bytes are a text. Short ones are first checked for ASCII; longer ones are read in
//! steps of 64 bytes.

ghost use Rattle.std.specs.Prelude.{◌≡◌, IsUtf8, MatchOption};

use dagcbor_decode::is_short_ascii;
use simdutf8::basic;
use std::str::{from_utf8, from_utf8_unchecked};

/// How many bytes a step reads. Steps are faster from this length on.
const STEP: usize = 64;

/// Returns the bytes as a text, or `None` if they are not UTF-8.
pub(crate) fn as_text(bytes: &[u8]) -> Option<&str>
    ensures { MatchOption result (¬ IsUtf8 bytes.now)
        (λ s. (s.now ≡ bytes.now) × IsUtf8 bytes.now) }
{
    if is_short_ascii(bytes) {
        return Some(unsafe { from_utf8_unchecked(bytes) });
    }
    if bytes.len() < STEP {
        from_utf8(bytes).ok()
    } else {
        basic::from_utf8(bytes).ok()
    }
}
