//! Writes the header and the sections of a CAR file to any writer.

ghost use Rattle.std.specs.Prelude.{◌≡◌, Some, OnOk};
ghost use Rattle.dagcbor_heads.specs.Written.{Writes, WantsMemoryOnlyIf};
ghost use Rattle.ipld_tree.specs.Cid.{varint};
ghost use Rattle.dagcbor_items.specs.Walks.{forms};
ghost use Rattle.files_car.specs.Car.{counted, header_bytes, IsHeader};
ghost use Rattle.files_car.specs.Car.{section_bytes, IsSection};
ghost use Rattle.files_car.specs.Writers.{UnsentWithoutMemory};

use crate::header::spell_header;
use crate::pull::MOST_GROUPS;
use arrayvec::ArrayVec;
use dagcbor_core::EncodeError;
use dagcbor_heads::{Write, WriteResult};
use ipld_tree::Cid;
use std::alloc::Global;

/// Appends the header of a file with these roots. Encoding it allocates, whatever the writer does.
pub fn push_header<W: Write>(alloc: Global, writer: &mut W, roots: &[Cid]) -> WriteResult<(), W>
    ensures written { Writes (Some (header_bytes (forms roots.now)))
        (W.written writer.old) (W.written writer.new) result }
    ensures header { OnOk result (IsHeader (forms roots.now)) }
    ensures unsent { UnsentWithoutMemory W.takes_memory (W.written writer.old) result
        (W.written writer.new) }
{
    let Ok(spelled) = spell_header(alloc, roots) else {
        return Err(EncodeError::OutOfMemory);
    };
    push_counted(writer, &spelled)
}

/// Appends the length of the bytes, and the bytes.
fn push_counted<W: Write>(writer: &mut W, bytes: &[u8]) -> WriteResult<(), W>
    ensures written { Writes (Some (counted bytes.now))
        (W.written writer.old) (W.written writer.new) result }
    ensures memory { WantsMemoryOnlyIf W.takes_memory result }
{
    push_length(writer, bytes.len())?;
    writer.push(bytes)
}

/// Appends the section of the block under this name. The name is not compared with the block.
pub fn push_section<W: Write>(writer: &mut W, cid: &Cid, block: &[u8]) -> WriteResult<(), W>
    ensures written { Writes (Some (section_bytes (cid.now, block.now)))
        (W.written writer.old) (W.written writer.new) result }
    ensures memory { WantsMemoryOnlyIf W.takes_memory result }
    ensures section { IsSection (cid.now, block.now) }
{
    let mut name = ArrayVec::new();
    cid.write_bytes(&mut name);
    push_length(writer, name.len() + block.len())?;
    writer.push(&name)?;
    writer.push(block)
}

/// Appends a length as a varint.
fn push_length<W: Write>(writer: &mut W, length: usize) -> WriteResult<(), W>
    ensures written { Writes (Some (varint length))
        (W.written writer.old) (W.written writer.new) result }
    ensures memory { WantsMemoryOnlyIf W.takes_memory result }
{
    writer.push(&varint_of(length as u64))
}

/// Returns the varint of the number: groups of seven bits, the lowest first.
fn varint_of(number: u64) -> ArrayVec<u8, MOST_GROUPS>
    ensures { result.items ≡ varint number }
{
    let mut groups = ArrayVec::new();
    let mut rest = number;
    while rest >= 128 {
        groups.push(128 + (rest % 128) as u8);
        rest /= 128;
    }
    groups.push(rest as u8);
    groups
}
