//! Finds the bytes after items by their heads only.

ghost use Rattle.std.specs.Prelude.{◌≡◌, ◌<◌, ◌≤◌, ◌^◌, length, drop, MatchOption, IsTrue};
ghost use Rattle.std.specs.Prelude.{if◌then◌else◌};
ghost use Rattle.dagcbor_decode.specs.Rows.{is_string};
ghost use Rattle.dagcbor_items.specs.Skips.{part_count, FindsAfterItems};

use dagcbor_core::split_head;

/// Returns the bytes after a token whose head was split off: after its string, if it has one.
/// `None` if the string is cut.
#[inline(always)]
pub fn after_token(major: u8, argument: u64, following: &[u8]) -> Option<&[u8]>
    ensures { MatchOption result
        (IsTrue (is_string major) × (length following.now < argument))
        (λ rest. (IsTrue (is_string major) → argument ≤ length following.now)
        × (rest.now ≡ (if is_string major then drop argument following.now else following.now))) }
{
    if major != 2 && major != 3 {
        return Some(following);
    }
    if (following.len() as u64) < argument {
        return None;
    }
    Some(following.split_at(argument as usize).1)
}

/// Returns how many items follow the head as parts of its item, or `None` if that is 2^64 or more.
#[inline(always)]
fn parts_after(major: u8, argument: u64) -> Option<u64>
    ensures { MatchOption result (2 ^ 64 ≤ part_count major argument)
        (λ n. n ≡ part_count major argument) }
{
    match major {
        4 => Some(argument),
        5 => argument.checked_mul(2),
        6 => Some(1),
        _ => Some(0),
    }
}

/// Returns the bytes after `count` items, found by their heads: those of lists, maps and links are
/// followed by their parts, those of strings by their bytes. It does not validate. If the bytes
/// begin with items, this is where they end (`items_found` in `proofs/Skipping.antt`). Bytes that
/// are not items may have such an end too.
pub fn after_items(bytes: &[u8], count: u64) -> Option<&[u8]>
    ensures { FindsAfterItems (λ s. s.now) bytes.now count result }
{
    let mut rest = bytes;
    let mut more = count;
    while more > 0 {
        let (major, argument, following) = split_head(rest)?;
        rest = after_token(major, argument, following)?;
        more = (more - 1).checked_add(parts_after(major, argument)?)?;
    }
    Some(rest)
}

/// Returns the bytes after the item at the front, as `after_items` finds them.
pub fn after_item(bytes: &[u8]) -> Option<&[u8]>
    ensures { FindsAfterItems (λ s. s.now) bytes.now 1 result }
{
    after_items(bytes, 1)
}
