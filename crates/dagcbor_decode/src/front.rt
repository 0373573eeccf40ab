//! Splits payloads, keys, links and leaves (items that contain no other) off the front of bytes
//! that are all in memory. `None` says that the bytes begin with nothing of the kind.

ghost use Rattle.std.specs.Prelude.{◌≡◌, ◌<◌, ◌≤◌, length, List, ℕ, MatchOption};
ghost use Rattle.dagcbor_core.specs.Splits.{SplitsHead};
ghost use Rattle.ipld_tree.specs.Tree.{text, link};
ghost use Rattle.ipld_tree.specs.Spelling.{IsFront};
ghost use Rattle.dagcbor_decode.specs.Fronts.{SplitsPayload, SplitsText, SplitsCid, SplitsLeaf};

use crate::cid::is_cid;
use crate::text::is_text;
use dagcbor_core::split_head;

/// Returns the next n bytes, and the bytes after them. `None` if fewer than n are left.
#[inline(always)]
pub fn split_payload(bytes: &[u8], n: u64) -> Option<(&[u8], &[u8])>
    ensures { MatchOption result (length bytes.now < n)
        (λ p. SplitsPayload bytes.now n p.0.now p.1.now) }
{
    if (bytes.len() as u64) < n {
        return None;
    }
    Some(bytes.split_at(n as usize))
}

/// Returns the bytes of a text of n bytes, and the bytes after it.
#[inline(always)]
fn split_text(bytes: &[u8], n: u64) -> Option<(&[u8], &[u8])>
    ensures { MatchOption result
        (¬ ((s : List ℕ) × (rest : List ℕ) × SplitsText bytes.now n s rest))
        (λ p. SplitsText bytes.now n p.0.now p.1.now) }
{
    let (payload, rest) = split_payload(bytes, n)?;
    if !is_text(payload) {
        return None;
    }
    Some((payload, rest))
}

/// Returns the bytes of the key at the front, and the bytes after it.
#[inline(always)]
pub(crate) fn split_key(bytes: &[u8]) -> Option<(&[u8], &[u8])>
    ensures { MatchOption result
        (¬ ((key : List ℕ) × (rest : List ℕ) × IsFront bytes.now (text key) rest))
        (λ p. IsFront bytes.now (text p.0.now) p.1.now) }
{
    let (major, count, more) = split_head(bytes)?;
    if major != 3 {
        return None;
    }
    split_text(more, count)
}

/// Returns the bytes after the byte string of a zero and a CID.
#[inline(always)]
fn after_cid(bytes: &[u8]) -> Option<&[u8]>
    ensures { MatchOption result
        (¬ ((cid : List ℕ) × (rest : List ℕ) × SplitsCid bytes.now cid rest))
        (λ rest. (cid : List ℕ) × SplitsCid bytes.now cid rest.now) }
{
    let (major, count, more) = split_head(bytes)?;
    if major != 2 {
        return None;
    }
    let (payload, rest) = split_payload(more, count)?;
    let (zero, cid) = payload.split_first()?;
    if *zero != 0 {
        return None;
    }
    if !is_cid(cid) {
        return None;
    }
    Some(rest)
}

/// Returns the bytes after the content of a tag of this number, if it is the tag of links.
#[inline(always)]
fn after_tag(number: u64, bytes: &[u8]) -> Option<&[u8]>
    ensures { MatchOption result
        (number ≡ 42 → ¬ ((cid : List ℕ) × (rest : List ℕ) × SplitsCid bytes.now cid rest))
        (λ rest. (cid : List ℕ) × (number ≡ 42) × SplitsCid bytes.now cid rest.now) }
{
    if number != 42 {
        return None;
    }
    after_cid(bytes)
}

/// Returns the bytes after the link at the front, or `None` if there is no link.
pub fn after_link(bytes: &[u8]) -> Option<&[u8]>
    ensures { MatchOption result
        (¬ ((cid : List ℕ) × (rest : List ℕ) × IsFront bytes.now (link cid) rest))
        (λ rest. (cid : List ℕ) × IsFront bytes.now (link cid) rest.now) }
{
    let (major, number, more) = split_head(bytes)?;
    if major != 6 {
        return None;
    }
    after_tag(number, more)
}

/// Returns the bytes after a simple value, if it is false, true or null.
#[inline(always)]
fn after_simple(value: u64, bytes: &[u8]) -> Option<&[u8]>
    ensures { MatchOption result (20 ≤ value → ¬ (value ≤ 22))
        (λ rest. (20 ≤ value) × (value ≤ 22) × (rest.now ≡ bytes.now)) }
{
    if value < 20 {
        return None;
    }
    if value > 22 {
        return None;
    }
    Some(bytes)
}

/// Returns the bytes after an item whose head was split off, if it is a leaf: neither a list nor a
/// map.
#[inline(always)]
pub fn after_leaf(major: u8, argument: u64, more: &[u8]) -> Option<&[u8]>
    ensures { (b : List ℕ) → SplitsHead b major argument more.now → MatchOption result
        (¬ ((rest : List ℕ) × SplitsLeaf b rest)) (λ rest. SplitsLeaf b rest.now) }
{
    match major {
        0 => Some(more),
        1 => Some(more),
        2 => {
            let (_payload, rest) = split_payload(more, argument)?;
            Some(rest)
        }
        3 => {
            let (_text, rest) = split_text(more, argument)?;
            Some(rest)
        }
        6 => after_tag(argument, more),
        7 => after_simple(argument, more),
        _ => None,
    }
}
