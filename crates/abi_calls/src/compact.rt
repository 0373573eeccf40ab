//! The tokens of a block, in three numbers of 32 bits each.

ghost use Rattle.std.specs.Prelude.{◌≡◌, ◌/◌, ◌%◌, ◌^◌, ◌≤◌, length, take, drop};
ghost use Rattle.abi_calls.specs.CompactTapes.{are_ascii, compact, compact_kind, wrapped};
ghost use Rattle.abi_calls.specs.CompactTapes.{compact_tape_answer};

use crate::code::NO_ROOM;
use crate::tape::{INTEGER, NEGATIVE, STRING, TapeEntry, Token, put_entries};

/// A token in 12 bytes. For an integer, `number` and `place` are the low and the high half of its
/// number.
#[repr(C)]
#[derive(Clone, Copy, Debug, PartialEq, Eq)]
pub struct CompactToken {
    pub kind: u32,
    pub number: u32,
    pub place: u32,
}

/// The kind of a text whose bytes are all ASCII.
const ASCII: u32 = 9;

/// From this many bytes on, places may need more than 32 bits.
const TOO_MANY: usize = 1 << 32;

fn low_half(n: u64) -> u32
    ensures { result ≡ n % 2 ^ 32 }
{
    (n % (1 << 32)) as u32
}

fn high_half(n: u64) -> u32
    ensures { result ≡ n / 2 ^ 32 }
{
    (n >> 32) as u32
}

/// Returns up to `number` bytes from the place on, as many as there are.
fn payload_within(bytes: &[u8], place: u32, number: u32) -> &[u8]
    ensures { result.now ≡ take number (drop place bytes.now) }
{
    let following = &bytes[bytes.len().min(place as usize)..];
    &following[..following.len().min(number as usize)]
}

fn is_ascii(bytes: &[u8]) -> bool
    ensures { result ≡ are_ascii bytes.now }
{
    bytes.is_ascii()
}

/// Returns the compact kind of a token whose payload is at the place.
fn compact_kind(bytes: &[u8], kind: u32, number: u32, place: u32) -> u32
    ensures { result ≡ compact_kind kind (take number (drop place bytes.now)) }
{
    if u64::from(kind) == STRING && is_ascii(payload_within(bytes, place, number)) {
        return ASCII;
    }
    kind
}

impl TapeEntry for CompactToken {
    ghost made = { λ bytes token. compact bytes (wrapped token) };

    fn made(bytes: &[u8], token: Token) -> CompactToken {
        let kind = low_half(token.kind);
        if let INTEGER | NEGATIVE = u64::from(kind) {
            return CompactToken {
                kind,
                number: low_half(token.number),
                place: high_half(token.number),
            };
        }
        let (number, place) = (low_half(token.number), low_half(token.place));
        CompactToken {
            kind: compact_kind(bytes, kind, number, place),
            number,
            place,
        }
    }
}

/// Writes the compact tape of a block of fewer than 2^32 bytes, as `put_tape` writes a tape.
/// Returns -21 if there are more bytes.
pub fn put_compact_tape(bytes: &[u8], tape: &mut [CompactToken], needed: &mut usize) -> i32
    ensures answer { (result, needed.new, tape.new) ≡ compact_tape_answer bytes.now tape.old }
    ensures few { needed.new ≤ length bytes.now }
{
    if bytes.len() >= TOO_MANY {
        *needed = 0;
        return NO_ROOM;
    }
    put_entries(bytes, tape, needed)
}
