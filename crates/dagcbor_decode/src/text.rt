//! Tests whether bytes are a text. Short ones are first checked for ASCII.

ghost use Rattle.std.specs.Prelude.{◌≡◌, ◌↔◌, ◌&&◌, IsTrue, IsUtf8, length, nat_lt};
ghost use Rattle.std.specs.List.{list_all};
ghost use Rattle.std.specs.Char.{is_ascii};
ghost use Rattle.std.specs.Str.{is_utf8};

use std::str::from_utf8;

/// Texts shorter than this are first looked at byte by byte.
const SHORT: usize = 32;

/// Returns whether all of the bytes are ASCII.
#[inline(always)]
fn is_plain(bytes: &[u8]) -> bool
    ensures { result ≡ list_all is_ascii bytes.now }
{
    bytes.iter().all(|byte| byte.is_ascii())
}

#[inline(never)]
fn is_any_text(bytes: &[u8]) -> bool
    ensures { IsTrue result ↔ IsUtf8 bytes.now }
{
    // For few bytes the other call takes four times as long.
    if bytes.len() < SHORT {
        return from_utf8(bytes).is_ok();
    }
    simdutf8::is_utf8(bytes)
}

/// Returns whether the bytes are fewer than 32, and all ASCII.
#[inline(always)]
pub fn is_short_ascii(bytes: &[u8]) -> bool
    ensures exact { result ≡ (nat_lt (length bytes.now) 32 && list_all is_ascii bytes.now) }
    ensures text { IsTrue result → IsUtf8 bytes.now }
{
    bytes.len() < SHORT && is_plain(bytes)
}

/// Returns whether the bytes are a text.
#[inline(always)]
pub fn is_text(bytes: &[u8]) -> bool
    ensures { result ≡ is_utf8 bytes.now }
{
    if is_short_ascii(bytes) {
        return true;
    }
    is_any_text(bytes)
}
