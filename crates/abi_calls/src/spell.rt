//! The bytes that a tape encodes, and whether they are a block.

ghost use Rattle.std.specs.Prelude.{◌≡◌, ◌≤◌, Some, List, ℕ};
ghost use Rattle.abi_calls.specs.Told.{payload_at, string_told, link_told, token_bytes};
ghost use Rattle.abi_calls.specs.Told.{PutsToldAt, HasRoomAt, HasRoomFor};
ghost use Rattle.abi_calls.specs.Told.{FillsTold};
ghost use Rattle.abi_calls.specs.Answers.{spell_answer};

use crate::code::{NO_ROOM, check, kind_code};
use crate::judge::block_length;
use crate::tape::Token;
use crate::told::told_length;
use dagcbor_decode::kind_of_front;
use lent_memory::{put, put_head, put_link, put_string};

/// Returns n bytes from the place on, which must be there.
#[inline(always)]
fn payload_told(bytes: &[u8], place: u64, n: u64) -> &[u8]
    requires { (s : List ℕ) × (payload_at bytes.now place n ≡ Some s) }
    ensures { payload_at bytes.now place n ≡ Some result.now }
{
    let (from, count) = (place as usize, n as usize);
    &bytes[from..from + count]
}

#[inline(always)]
fn put_told_string(out: &mut [u8], at: usize, major: u8, bytes: &[u8], token: &Token) -> usize
    requires small { major ≤ 7 }
    requires room { HasRoomAt (string_told major bytes.now token.now.number token.now.place) at
        out.old }
    ensures { PutsToldAt (string_told major bytes.now token.now.number token.now.place) at out.old
        out.new result }
{
    put_string(
        out,
        at,
        major,
        payload_told(bytes, token.place, token.number),
    )
}

#[inline(always)]
fn put_told_link(out: &mut [u8], at: usize, bytes: &[u8], token: &Token) -> usize
    requires { HasRoomAt (link_told bytes.now token.now.number token.now.place) at out.old }
    ensures { PutsToldAt (link_told bytes.now token.now.number token.now.place) at out.old out.new
        result }
{
    put_link(out, at, payload_told(bytes, token.place, token.number))
}

/// Writes the bytes that the token encodes at the place, which has room for them. Returns the place
/// after them.
#[inline(always)]
fn put_told(out: &mut [u8], at: usize, bytes: &[u8], token: &Token) -> usize
    requires { HasRoomAt (token_bytes bytes.now token.now.kind token.now.number token.now.place) at
        out.old }
    ensures { PutsToldAt (token_bytes bytes.now token.now.kind token.now.number token.now.place) at
        out.old out.new result }
{
    match token.kind {
        0 => put(out, at, &[0xf6]),
        1 => put(out, at, &[0xf4 + token.number as u8]),
        2 => put_head(out, at, 0, token.number),
        3 => put_told_string(out, at, 3, bytes, token),
        4 => put_told_string(out, at, 2, bytes, token),
        5 => put_head(out, at, 4, token.number),
        6 => put_head(out, at, 5, token.number),
        7 => put_told_link(out, at, bytes, token),
        _ => put_head(out, at, 1, token.number),
    }
}

/// Writes the bytes that the tape encodes at the front of `out`.
#[inline(never)]
fn fill(bytes: &[u8], tape: &[Token], out: &mut [u8])
    requires { HasRoomFor bytes.now tape.now out.old }
    ensures { FillsTold bytes.now tape.now out.old out.new }
{
    let mut at = 0;
    for token in tape {
        at = put_told(out, at, bytes, token);
    }
}

/// The number returned for a tape with an invalid token.
const NO_TOKEN: i32 = -20;

/// Writes the bytes that the tape encodes at the front of `out`, if they fit, and judges them.
pub fn spell_tape(bytes: &[u8], tape: &[Token], out: &mut [u8], needed: &mut usize) -> i32
    ensures { (result, needed.new, out.new) ≡ spell_answer bytes.now tape.now out.old }
{
    if let Some(count) = block_length(bytes, tape, out.len()) {
        *needed = count;
        fill(bytes, tape, out);
        return kind_code(kind_of_front(out));
    }
    spell_slowly(bytes, tape, out, needed)
}

/// Counts the bytes that any tape encodes, writes them, and judges them.
#[cold]
#[inline(never)]
fn spell_slowly(bytes: &[u8], tape: &[Token], out: &mut [u8], needed: &mut usize) -> i32
    ensures { (result, needed.new, out.new) ≡ spell_answer bytes.now tape.now out.old }
{
    *needed = 0;
    let Some(count) = told_length(bytes, tape) else {
        return NO_TOKEN;
    };
    *needed = count;
    if count == usize::MAX || count > out.len() {
        return NO_ROOM;
    }
    fill(bytes, tape, out);
    check(&out[..count])
}
