//! Reads the parts of an item one by one, as `Decode.antt` does, to find which of them is refused,
//! why and where. The judge calls this if it finds no item.

ghost use Rattle.std.specs.Prelude.{◌≡◌, ◌^◌, option_map, length};
ghost use Rattle.std.specs.Int.{w8, w16, w32, w64};
ghost use Rattle.dagcbor_decode.specs.Told.{told, rest_of, skim, name, count_of, front_of};
ghost use Rattle.dagcbor_decode.specs.Decode.{payload, at_least, number, argument_of, string_of};
ghost use Rattle.dagcbor_decode.specs.Decode.{text_of, follows, key_of, zero_and_cid};
ghost use Rattle.dagcbor_decode.specs.Decode.{cid_bytes_of, cid_of, tag_of, link_of, simple_of, leaf_of};

use crate::cause::{Cause, Label, Stop};
use crate::cid::is_cid;
use crate::text::is_text;
use ipld_tree::comes_before;

/// Returns the next n bytes, and the bytes after them.
#[inline(always)]
fn payload(label: Label, n: u64, bytes: &[u8]) -> Result<(&[u8], &[u8]), Stop>
    ensures { told (λ s. s.now) result ≡ payload (name label) n bytes.now }
{
    if (bytes.len() as u64) < n {
        return Err(Stop {
            cause: Cause::Eof(label, n),
            left: 0,
        });
    }
    Ok(bytes.split_at(n as usize))
}

/// Returns the argument, or refuses it if it is below the least.
#[inline(always)]
fn at_least(label: Label, first: u8, least: u64, n: u64, rest: &[u8]) -> Result<(u64, &[u8]), Stop>
    ensures { told (λ n. n) result ≡ at_least (name label) first least n rest.now }
{
    if n < least {
        return Err(Stop {
            cause: Cause::NonMinimal(label, first),
            left: rest.len(),
        });
    }
    Ok((n, rest))
}

#[inline(always)]
fn one(label: Label, first: u8, bytes: &[u8]) -> Result<(u64, &[u8]), Stop>
    ensures { told (λ n. n) result ≡ number (name label) first w8 1 24 bytes.now }
{
    match bytes.split_first() {
        Some((n, rest)) => at_least(label, first, 24, u64::from(*n), rest),
        None => Err(Stop {
            cause: Cause::Eof(label, 1),
            left: 0,
        }),
    }
}

#[inline(always)]
fn two(label: Label, first: u8, bytes: &[u8]) -> Result<(u64, &[u8]), Stop>
    ensures { told (λ n. n) result ≡ number (name label) first w16 2 (2 ^ 8) bytes.now }
{
    match bytes.split_first_chunk::<2>() {
        Some((front, rest)) => at_least(
            label,
            first,
            256,
            u64::from(u16::from_be_bytes(*front)),
            rest,
        ),
        None => Err(Stop {
            cause: Cause::Eof(label, 2),
            left: 0,
        }),
    }
}

#[inline(always)]
fn four(label: Label, first: u8, bytes: &[u8]) -> Result<(u64, &[u8]), Stop>
    ensures { told (λ n. n) result ≡ number (name label) first w32 4 (2 ^ 16) bytes.now }
{
    match bytes.split_first_chunk::<4>() {
        Some((front, rest)) => at_least(
            label,
            first,
            65_536,
            u64::from(u32::from_be_bytes(*front)),
            rest,
        ),
        None => Err(Stop {
            cause: Cause::Eof(label, 4),
            left: 0,
        }),
    }
}

#[inline(always)]
fn eight(label: Label, first: u8, bytes: &[u8]) -> Result<(u64, &[u8]), Stop>
    ensures { told (λ n. n) result ≡ number (name label) first w64 8 (2 ^ 32) bytes.now }
{
    match bytes.split_first_chunk::<8>() {
        Some((front, rest)) => at_least(label, first, 1 << 32, u64::from_be_bytes(*front), rest),
        None => Err(Stop {
            cause: Cause::Eof(label, 8),
            left: 0,
        }),
    }
}

/// Returns the argument of the head that begins with this byte, and the bytes after the head.
#[inline(always)]
fn argument_of(label: Label, first: u8, bytes: &[u8]) -> Result<(u64, &[u8]), Stop>
    ensures { told (λ n. n) result ≡ argument_of (name label) first bytes.now }
{
    match first % 32 {
        24 => one(label, first, bytes),
        25 => two(label, first, bytes),
        26 => four(label, first, bytes),
        27 => eight(label, first, bytes),
        31 => Err(Stop {
            cause: Cause::IndefiniteSize,
            left: bytes.len(),
        }),
        information if information < 24 => Ok((u64::from(information), bytes)),
        _ => Err(Stop {
            cause: Cause::Unsupported(label, first),
            left: bytes.len(),
        }),
    }
}

#[inline(always)]
fn string_of(label: Label, first: u8, bytes: &[u8]) -> Result<(&[u8], &[u8]), Stop>
    ensures { told (λ s. s.now) result ≡ string_of (name label) first bytes.now }
{
    let (n, rest) = argument_of(label, first, bytes)?;
    payload(label, n, rest)
}

#[inline(always)]
fn text_of(label: Label, first: u8, bytes: &[u8]) -> Result<(&[u8], &[u8]), Stop>
    ensures { told (λ s. s.now) result ≡ text_of (name label) first bytes.now }
{
    let (s, rest) = string_of(label, first, bytes)?;
    if !is_text(s) {
        return Err(Stop {
            cause: Cause::RequireUtf8(label),
            left: rest.len(),
        });
    }
    Ok((s, rest))
}

/// Returns whether the key may come after the previous one.
#[inline(always)]
pub fn follows(previous: &Option<&[u8]>, key: &[u8]) -> bool
    ensures { result ≡ follows (option_map (λ s. s.now) previous.now) key.now }
{
    match previous {
        None => true,
        Some(before) => comes_before(before, key),
    }
}

#[inline(always)]
pub(crate) fn key_of<'b>(
    previous: &Option<&[u8]>,
    bytes: &'b [u8],
) -> Result<(&'b [u8], &'b [u8]), Stop>
    ensures { told (λ s. s.now) result ≡ key_of (option_map (λ s. s.now) previous.now) bytes.now }
{
    let Some((first, more)) = bytes.split_first() else {
        return Err(Stop {
            cause: Cause::Eof(Label::MapKey, 1),
            left: 0,
        });
    };
    if *first / 32 != 3 {
        return Err(Stop {
            cause: Cause::Mismatch(Label::MapKey, *first),
            left: more.len(),
        });
    }
    let (key, rest) = text_of(Label::MapKey, *first, more)?;
    if !follows(previous, key) {
        return Err(Stop {
            cause: Cause::UnorderedKey,
            left: rest.len(),
        });
    }
    Ok((key, rest))
}

fn no_cid(rest: &[u8]) -> Stop
    ensures { result ≡ record { cause = Cause.InvalidCid; left = length rest.now } }
{
    Stop {
        cause: Cause::InvalidCid,
        left: rest.len(),
    }
}

/// Returns `rest`, if the payload is a zero and a CID.
#[inline(always)]
fn zero_and_cid<'b>(payload: &[u8], rest: &'b [u8]) -> Result<&'b [u8], Stop>
    ensures { rest_of result ≡ skim (zero_and_cid payload.now rest.now) }
{
    match payload.split_first() {
        None => Err(no_cid(rest)),
        Some((zero, cid)) => {
            if *zero != 0 {
                return Err(no_cid(rest));
            }
            if !is_cid(cid) {
                return Err(no_cid(rest));
            }
            Ok(rest)
        }
    }
}

#[inline(always)]
fn cid_bytes_of(n: u64, bytes: &[u8]) -> Result<&[u8], Stop>
    ensures { rest_of result ≡ skim (cid_bytes_of n bytes.now) }
{
    if n > 87 {
        return Err(no_cid(bytes));
    }
    let (s, rest) = payload(Label::Cid, n, bytes)?;
    zero_and_cid(s, rest)
}

#[inline(always)]
fn cid_of(bytes: &[u8]) -> Result<&[u8], Stop>
    ensures { rest_of result ≡ skim (cid_of bytes.now) }
{
    let Some((first, rest)) = bytes.split_first() else {
        return Err(Stop {
            cause: Cause::Eof(Label::Cid, 1),
            left: 0,
        });
    };
    if *first / 32 != 2 {
        return Err(Stop {
            cause: Cause::Unsupported(Label::Cid, *first),
            left: rest.len(),
        });
    }
    let (n, rest) = argument_of(Label::Cid, *first, rest)?;
    cid_bytes_of(n, rest)
}

#[inline(always)]
fn tag_of(bytes: &[u8]) -> Result<&[u8], Stop>
    ensures { rest_of result ≡ skim (tag_of bytes.now) }
{
    let Some((second, rest)) = bytes.split_first() else {
        return Err(Stop {
            cause: Cause::Eof(Label::Tag, 1),
            left: 0,
        });
    };
    if *second != 0x2a {
        return Err(Stop {
            cause: Cause::Mismatch(Label::CborTag, *second),
            left: rest.len(),
        });
    }
    cid_of(rest)
}

#[inline(always)]
fn link_of(first: u8, bytes: &[u8]) -> Result<&[u8], Stop>
    ensures { rest_of result ≡ skim (link_of first bytes.now) }
{
    if first != 0xd8 {
        return Err(Stop {
            cause: Cause::Mismatch(Label::TagHead, first),
            left: bytes.len(),
        });
    }
    tag_of(bytes)
}

#[inline(always)]
fn simple_of(first: u8, bytes: &[u8]) -> Result<&[u8], Stop>
    ensures { rest_of result ≡ skim (simple_of first bytes.now) }
{
    match first {
        0xf4 => Ok(bytes),
        0xf5 => Ok(bytes),
        0xf6 => Ok(bytes),
        _ => Err(Stop {
            cause: Cause::Unsupported(Label::Any, first),
            left: bytes.len(),
        }),
    }
}

#[inline(always)]
fn number_of(label: Label, first: u8, bytes: &[u8]) -> Result<&[u8], Stop>
    ensures { rest_of result ≡ skim (argument_of (name label) first bytes.now) }
{
    let (_n, rest) = argument_of(label, first, bytes)?;
    Ok(rest)
}

#[inline(always)]
fn bytes_of(first: u8, bytes: &[u8]) -> Result<&[u8], Stop>
    ensures { rest_of result ≡ skim (string_of (name Label.Bytes) first bytes.now) }
{
    let (_s, rest) = string_of(Label::Bytes, first, bytes)?;
    Ok(rest)
}

#[inline(always)]
fn characters_of(first: u8, bytes: &[u8]) -> Result<&[u8], Stop>
    ensures { rest_of result ≡ skim (text_of (name Label.Text) first bytes.now) }
{
    let (_s, rest) = text_of(Label::Text, first, bytes)?;
    Ok(rest)
}

#[inline(always)]
fn leaf_of(first: u8, bytes: &[u8]) -> Result<&[u8], Stop>
    ensures { rest_of result ≡ skim (leaf_of first bytes.now) }
{
    match first / 32 {
        0 => number_of(Label::U64, first, bytes),
        1 => number_of(Label::Any, first, bytes),
        2 => bytes_of(first, bytes),
        3 => characters_of(first, bytes),
        6 => link_of(first, bytes),
        _ => simple_of(first, bytes),
    }
}

/// Returns the bytes after the head of a list or a map, if steps are left for what is in it.
#[inline(always)]
fn count_of(label: Label, steps: usize, first: u8, bytes: &[u8]) -> Result<&[u8], Stop>
    ensures { rest_of result ≡ skim (count_of (name label) steps first bytes.now) }
{
    if steps == 0 {
        return Err(Stop {
            cause: Cause::DepthOverflow(label),
            left: bytes.len(),
        });
    }
    number_of(label, first, bytes)
}

/// Returns the bytes after a leaf, or after the head of a list or a map.
pub(crate) fn front_of(steps: usize, bytes: &[u8]) -> Result<&[u8], Stop>
    ensures { rest_of result ≡ front_of steps bytes.now }
{
    if steps == 0 {
        return Err(Stop {
            cause: Cause::DepthOverflow(Label::Any),
            left: bytes.len(),
        });
    }
    let Some((first, more)) = bytes.split_first() else {
        return Err(Stop {
            cause: Cause::Eof(Label::Any, 1),
            left: 0,
        });
    };
    if *first % 32 == 31 {
        return Err(Stop {
            cause: Cause::IndefiniteSize,
            left: more.len(),
        });
    }
    let major = *first / 32;
    if major == 4 {
        count_of(Label::Array, steps - 1, *first, more)
    } else if major == 5 {
        count_of(Label::Map, steps - 1, *first, more)
    } else {
        leaf_of(*first, more)
    }
}
