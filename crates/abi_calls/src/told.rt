//! How many bytes tokens encode.

ghost use Rattle.std.specs.Prelude.{◌≡◌, ◌<◌, ◌≤◌, Some, None, MatchOption};
ghost use Rattle.abi_calls.specs.Told.{payload_at, token_bytes, TellsLength, CountsTold};

use crate::tape::Token;
use lent_memory::{head_length, link_length, string_length};

/// Returns n bytes from the place on, if they are there.
#[inline(always)]
pub(crate) fn payload_at(bytes: &[u8], place: u64, n: u64) -> Option<&[u8]>
    ensures { MatchOption result (payload_at bytes.now place n ≡ None)
        (λ s. payload_at bytes.now place n ≡ Some s.now) }
{
    let whole = bytes.len() as u64;
    if place > whole || n > whole - place {
        return None;
    }
    let (from, count) = (place as usize, n as usize);
    Some(&bytes[from..from + count])
}

/// Returns how many bytes a simple value has, if its number is at most `most`.
#[inline(always)]
pub(crate) fn simple_length(number: u64, most: u64) -> Option<usize>
    ensures { MatchOption result (most < number) (λ n. (number ≤ most) × (n ≡ 1)) }
{
    if number > most { None } else { Some(1) }
}

/// Returns how many bytes a token encodes, if it is valid.
#[inline(always)]
fn token_length(bytes: &[u8], token: &Token) -> Option<usize>
    ensures { TellsLength (token_bytes bytes.now token.now.kind token.now.number token.now.place)
        result }
{
    match token.kind {
        0 => simple_length(token.number, 0),
        1 => simple_length(token.number, 1),
        2 => Some(head_length(token.number)),
        3 => Some(string_length(payload_at(bytes, token.place, token.number)?)),
        4 => Some(string_length(payload_at(bytes, token.place, token.number)?)),
        5 => Some(head_length(token.number)),
        6 => Some(head_length(token.number)),
        7 => Some(link_length(payload_at(bytes, token.place, token.number)?)),
        8 => Some(head_length(token.number)),
        _ => None,
    }
}

/// Returns how many bytes the tape encodes, if each of its tokens is valid. The sum has room for
/// any tape.
#[inline(never)]
pub(crate) fn told_length(bytes: &[u8], tape: &[Token]) -> Option<usize>
    ensures { CountsTold bytes.now tape.now result }
{
    let mut count = 0u128;
    for token in tape {
        count += token_length(bytes, token)? as u128;
    }
    Some(count.min(usize::MAX as u128) as usize)
}
