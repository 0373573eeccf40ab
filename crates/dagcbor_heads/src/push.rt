//! Appends heads.

ghost use Rattle.std.specs.Prelude.{◌≡◌, ◌≤◌, ◌-◌, ◌++◌, take, drop, replicate, Some};
ghost use Rattle.dagcbor_core.specs.Head.{head};
ghost use Rattle.dagcbor_heads.specs.Written.{Writes, WantsMemoryOnlyIf, WritesAtOnce};

use crate::write::{Write, WriteResult};

/// Returns the bytes of the shortest head (RFC 8949, section 3), followed by zeros, and the length
/// of the head.
#[tactic(auto, unfolding(dagcbor_core::specs::Head::head))]
pub fn head_bytes(major: u8, argument: u64) -> ([u8; 9], usize)
    requires { major ≤ 7 }
    ensures count { result.1 ≤ 9 }
    ensures bytes { take result.1 result.0 ≡ head major argument }
    ensures zeros { drop result.1 result.0 ≡ replicate (9 - result.1) 0 }
{
    let first = 32 * major;
    if argument < 24 {
        ([first + argument as u8, 0, 0, 0, 0, 0, 0, 0, 0], 1)
    } else if argument < 1 << 8 {
        ([first + 24, argument as u8, 0, 0, 0, 0, 0, 0, 0], 2)
    } else if argument < 1 << 16 {
        let [a, b] = (argument as u16).to_be_bytes();
        ([first + 25, a, b, 0, 0, 0, 0, 0, 0], 3)
    } else if argument < 1 << 32 {
        let [a, b, c, d] = (argument as u32).to_be_bytes();
        ([first + 26, a, b, c, d, 0, 0, 0, 0], 5)
    } else {
        let [a, b, c, d, e, f, g, h] = argument.to_be_bytes();
        ([first + 27, a, b, c, d, e, f, g, h], 9)
    }
}

/// Appends the shortest head, if the writer has room for it. Else appends nothing, and returns
/// false. Each branch knows the length of its head, so the bytes are stored one by one, without a
/// call that copies.
#[tactic(auto, unfolding(dagcbor_core::specs::Head::head))]
pub fn push_head_at_once<W: Write>(writer: &mut W, major: u8, argument: u64) -> bool
    requires { major ≤ 7 }
    ensures { WritesAtOnce (Some (head major argument)) (W.written writer.old)
        (W.written writer.new) result }
{
    let first = 32 * major;
    if argument <= 23 {
        writer.push_at_once(&[first + argument as u8], &[])
    } else if argument < 1 << 8 {
        writer.push_at_once(&[first + 24, argument as u8], &[])
    } else if argument < 1 << 16 {
        let [a, b] = (argument as u16).to_be_bytes();
        writer.push_at_once(&[first + 25, a, b], &[])
    } else if argument < 1 << 32 {
        let [a, b, c, d] = (argument as u32).to_be_bytes();
        writer.push_at_once(&[first + 26, a, b, c, d], &[])
    } else {
        let [a, b, c, d, e, f, g, h] = argument.to_be_bytes();
        writer.push_at_once(&[first + 27, a, b, c, d, e, f, g, h], &[])
    }
}

/// Appends the shortest head and then the bytes, if the head is one byte and the writer has room
/// for both. Else appends nothing, and returns false.
#[tactic(auto, unfolding(dagcbor_core::specs::Head::head))]
pub fn push_headed_at_once<W: Write>(writer: &mut W, major: u8, argument: u64, bytes: &[u8]) -> bool
    requires { major ≤ 7 }
    ensures { WritesAtOnce (Some (head major argument ++ bytes.now)) (W.written writer.old)
        (W.written writer.new) result }
{
    argument <= 23 && writer.push_at_once(&[32 * major + argument as u8], bytes)
}

/// Appends the shortest head of this major type and argument.
pub fn push_head<W: Write>(writer: &mut W, major: u8, argument: u64) -> WriteResult<(), W>
    requires { major ≤ 7 }
    ensures written { Writes (Some (head major argument)) (W.written writer.old)
        (W.written writer.new) result }
    ensures memory { WantsMemoryOnlyIf W.takes_memory result }
{
    if push_head_at_once(writer, major, argument) {
        return Ok(());
    }
    push_head_bytes(writer, major, argument)
}

/// Pushes the shortest head. This is a separate function, so that a head for which there is room
/// does not handle the result of a push.
#[cold]
#[inline(never)]
fn push_head_bytes<W: Write>(writer: &mut W, major: u8, argument: u64) -> WriteResult<(), W>
    requires { major ≤ 7 }
    ensures written { Writes (Some (head major argument)) (W.written writer.old)
        (W.written writer.new) result }
    ensures memory { WantsMemoryOnlyIf W.takes_memory result }
{
    let (bytes, count) = head_bytes(major, argument);
    writer.push(&bytes[..count])
}
