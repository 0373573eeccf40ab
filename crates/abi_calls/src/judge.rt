//! Checks on tokens: whether the bytes that a tape encodes are surely a block. These bytes need not
//! exist yet: a head that is made from a number is always the shortest one.

ghost use Rattle.std.specs.Prelude.{◌≡◌, ◌+◌, ◌<◌, ◌≤◌, length, Some, IfSome, IsUtf8};
ghost use Rattle.std.specs.Prelude.{option_map};
ghost use Rattle.ipld_tree.specs.Cid.{IsCid};
ghost use Rattle.abi_calls.specs.TapeSplits.{SplitsItem, SplitsItems, SplitsEntries};
ghost use Rattle.abi_calls.specs.TapeSplits.{SplitsKeyAfter};
ghost use Rattle.abi_calls.specs.Told.{payload_at, token_bytes};
ghost use Rattle.abi_calls.specs.TapeJudging.{IsLeafTold, TellsMore, TellsBlock};

use crate::tape::Token;
use crate::told::{payload_at, simple_length};
use dagcbor_core::DEFAULT_STEPS;
use dagcbor_decode::{is_cid, is_text};
use dagcbor_items::follows;
use lent_memory::{head_length, link_length, string_length};

/// Returns the text of a token, if its payload is UTF-8.
#[inline(always)]
fn text_of<'b>(bytes: &'b [u8], token: &Token) -> Option<&'b [u8]>
    ensures { IfSome result (λ s. IsUtf8 s.now
        × (payload_at bytes.now token.now.place token.now.number ≡ Some s.now)) }
{
    let payload = payload_at(bytes, token.place, token.number)?;
    if is_text(payload) {
        Some(payload)
    } else {
        None
    }
}

/// Returns the CID of a token, if its payload is one.
#[inline(always)]
fn cid_of<'b>(bytes: &'b [u8], token: &Token) -> Option<&'b [u8]>
    ensures { IfSome result (λ s. IsCid s.now
        × (payload_at bytes.now token.now.place token.now.number ≡ Some s.now)) }
{
    let payload = payload_at(bytes, token.place, token.number)?;
    if is_cid(payload) { Some(payload) } else { None }
}

/// Returns how many bytes the item has that the token alone encodes, if it surely encodes one.
#[inline(always)]
fn leaf_length(bytes: &[u8], token: &Token) -> Option<usize>
    ensures { IfSome result (λ n. IsLeafTold
        (token_bytes bytes.now token.now.kind token.now.number token.now.place) n) }
{
    match token.kind {
        0 => simple_length(token.number, 0),
        1 => simple_length(token.number, 1),
        2 => Some(head_length(token.number)),
        3 => Some(string_length(text_of(bytes, token)?)),
        4 => Some(string_length(payload_at(bytes, token.place, token.number)?)),
        7 => Some(link_length(cid_of(bytes, token)?)),
        8 => Some(head_length(token.number)),
        _ => None,
    }
}

/// Returns the place after the tokens of the item at `at`, if they surely encode one that takes no
/// more than these steps. Subtracts its bytes from `room`.
#[cycle(judge)]
#[inline(always)]
fn after_item(
    bytes: &[u8],
    tape: &[Token],
    at: usize,
    steps: usize,
    room: &mut usize,
) -> Option<usize>
    requires { 1 ≤ steps }
    ensures { IfSome result (λ next. TellsMore (λ b rest. SplitsItem b steps rest) bytes.now tape.now at
        next room.old room.new) }
{
    if at >= tape.len() {
        return None;
    }
    let token = &tape[at];
    match token.kind {
        5 => {
            if steps < 3 {
                return None;
            }
            *room = room.checked_sub(head_length(token.number))?;
            after_items(bytes, tape, at + 1, token.number, steps - 2, room)
        }
        6 => {
            if steps < 3 {
                return None;
            }
            *room = room.checked_sub(head_length(token.number))?;
            after_entries(bytes, tape, at + 1, token.number, steps - 2, room)
        }
        _ => {
            *room = room.checked_sub(leaf_length(bytes, token)?)?;
            Some(at + 1)
        }
    }
}

/// Returns the place after the tokens of `count` items, as `after_item` does for one.
#[cycle(judge)]
#[inline(never)]
fn after_items(
    bytes: &[u8],
    tape: &[Token],
    at: usize,
    count: u64,
    steps: usize,
    room: &mut usize,
) -> Option<usize>
    requires { 1 ≤ steps }
    ensures { IfSome result (λ next. TellsMore (λ b rest. SplitsItems b count steps rest) bytes.now
        tape.now at next room.old room.new) }
{
    let mut next = at;
    let mut more = count;
    while more > 0 {
        next = after_item(bytes, tape, next, steps, room)?;
        more -= 1;
    }
    Some(next)
}

/// Returns the key at the place, if the token there surely encodes one that may follow the previous
/// one.
#[inline(always)]
fn key_at<'b>(
    bytes: &'b [u8],
    tape: &[Token],
    at: usize,
    previous: &Option<&[u8]>,
    room: &mut usize,
) -> Option<&'b [u8]>
    ensures inside { IfSome result (λ _. at < length tape.now) }
    ensures key { IfSome result
        (λ key. TellsMore (λ b rest. SplitsKeyAfter (option_map (λ s. s.now) previous.now)
        b key.now rest) bytes.now tape.now at (at + 1) room.old room.new) }
{
    if at >= tape.len() {
        return None;
    }
    let token = &tape[at];
    if token.kind != 3 {
        return None;
    }
    let key = text_of(bytes, token)?;
    if !follows(previous, key) {
        return None;
    }
    *room = room.checked_sub(string_length(key))?;
    Some(key)
}

/// Returns the place after the tokens of `count` entries, as `after_item` does for an item.
#[cycle(judge)]
#[inline(never)]
fn after_entries(
    bytes: &[u8],
    tape: &[Token],
    at: usize,
    count: u64,
    steps: usize,
    room: &mut usize,
) -> Option<usize>
    requires { 1 ≤ steps }
    ensures { IfSome result (λ next. TellsMore (λ b rest. SplitsEntries b count steps rest) bytes.now
        tape.now at next room.old room.new) }
{
    let mut previous = None;
    let mut next = at;
    let mut more = count;
    while more > 0 {
        let key = key_at(bytes, tape, next, &previous, room)?;
        next = after_item(bytes, tape, next + 1, steps, room)?;
        previous = Some(key);
        more -= 1;
    }
    Some(next)
}

/// Returns how many bytes the tape encodes, if they are surely a block of at most `most` bytes.
pub(crate) fn block_length(bytes: &[u8], tape: &[Token], most: usize) -> Option<usize>
    ensures { IfSome result (λ n. (n ≤ most) × TellsBlock bytes.now tape.now n) }
{
    let mut room = most;
    let next = after_item(bytes, tape, 0, DEFAULT_STEPS, &mut room)?;
    if next != tape.len() {
        return None;
    }
    Some(most - room)
}
