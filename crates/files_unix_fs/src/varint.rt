//! Varints of protocol buffers, and runs of bytes.

ghost use Rattle.std.specs.Prelude.{◌≡◌, ◌↔◌, IsTrue, ◌<◌, ◌≤◌, ◌*◌, ◌^◌, length, MatchResult, IfOk};
ghost use Rattle.files_unix_fs.specs.Fields.{groups_of, varint_of, bytes_of};

use crate::error::UnixFsCause;

/// The most bytes of a varint after its first one.
const MOST_GROUPS: u32 = 9;

/// Returns the number at the front, and the bytes after it.
#[tactic(auto, unfolding(crate::specs::Fields::varint_of))]
pub(crate) fn split_varint(bytes: &[u8]) -> Result<(u64, &[u8]), UnixFsCause>
    ensures { MatchResult result
        (λ p. varint_of bytes.now ≡ Ok (p.0, p.1.now))
        (λ e. varint_of bytes.now ≡ Err e) }
{
    split_groups(MOST_GROUPS, bytes)
}

/// Returns the number at the front, and the bytes after it. At most `more` groups may follow the
/// first one.
#[tactic(auto, unfolding(crate::specs::Fields::groups_of))]
fn split_groups(more: u32, bytes: &[u8]) -> Result<(u64, &[u8]), UnixFsCause>
    requires { more ≤ 9 }
    ensures number { MatchResult result
        (λ p. groups_of more bytes.now ≡ Ok (p.0, p.1.now))
        (λ e. groups_of more bytes.now ≡ Err e) }
    ensures below { IfOk result (λ p. p.0 < 2 * 128 ^ more) }
{
    let Some((&group, rest)) = bytes.split_first() else {
        return Err(UnixFsCause::Truncated);
    };
    if is_too_large(more, group) {
        return Err(UnixFsCause::InvalidVarint);
    }
    if group < 128 {
        return Ok((u64::from(group), rest));
    }
    let (number, following) = split_groups(more - 1, rest)?;
    Ok((u64::from(group % 128) + 128 * number, following))
}

/// Returns whether a varint below 2^64 cannot have this group here, where `more` groups may follow.
/// Of the tenth group it has the lowest bit only.
fn is_too_large(more: u32, group: u8) -> bool
    ensures { IsTrue result ↔ ((more ≡ 0) × (1 < group)) }
{
    more == 0 && group > 1
}

/// Returns the first `count` bytes, and the bytes after them.
pub(crate) fn split_bytes(count: u64, bytes: &[u8]) -> Result<(&[u8], &[u8]), UnixFsCause>
    ensures { MatchResult result
        (λ p. bytes_of count bytes.now ≡ Ok (p.0.now, p.1.now))
        (λ e. bytes_of count bytes.now ≡ Err e) }
{
    match bytes.split_at_checked(count as usize) {
        Some(parts) => Ok(parts),
        None => Err(UnixFsCause::Truncated),
    }
}
