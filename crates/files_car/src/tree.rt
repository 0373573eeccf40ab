//! Writes a CAR file of the blocks that links lead to.

ghost use Rattle.std.specs.Prelude.{[], ◌∷◌, Some, OnOk};
ghost use Rattle.std.specs.List.{AllByRecursion, flat_map};
ghost use Rattle.dagcbor_heads.specs.Written.{Writes, WantsMemoryOnlyIf};
ghost use Rattle.ipld_tree.specs.Cid.{cid_bytes};
ghost use Rattle.files_car.specs.Car.{car_bytes, section_bytes, IsSection, IsCar};
ghost use Rattle.files_car.specs.Writers.{UnsentWithoutMemory};
ghost use Rattle.ipld_links.specs.Reaching.{stored_in};
ghost use Rattle.files_car.specs.Reached.{section_at, sections_at};

use crate::push::{push_header, push_section};
use dagcbor_heads::{Write, WriteResult};
use ipld_links::stored_bytes;
use ipld_tree::Cid;
use std::alloc::Global;
use std::collections::BTreeMap;

/// Appends a file of one root, and of the blocks that the map has under these names, in their
/// order. Encoding the header allocates, whatever the writer does.
pub fn push_tree<W: Write>(
    alloc: Global,
    writer: &mut W,
    root: &Cid,
    blocks: &BTreeMap<Cid, Vec<u8>>,
    names: &[Cid],
) -> WriteResult<(), W>
    ensures written { Writes (Some (car_bytes (cid_bytes root.now ∷ [])
        (sections_at (stored_in blocks.now) names.now)))
        (W.written writer.old) (W.written writer.new) result }
    ensures is_car { OnOk result (IsCar (car_bytes (cid_bytes root.now ∷ [])
        (sections_at (stored_in blocks.now) names.now)) (cid_bytes root.now ∷ [])
        (sections_at (stored_in blocks.now) names.now)) }
    ensures unsent { UnsentWithoutMemory W.takes_memory (W.written writer.old) result
        (W.written writer.new) }
{
    push_header(alloc, writer, &[*root])?;
    for name in names {
        push_stored(writer, blocks, name)?;
    }
    Ok(())
}

/// Appends the section of the name, if the map has a block under it.
fn push_stored<W: Write>(
    writer: &mut W,
    blocks: &BTreeMap<Cid, Vec<u8>>,
    name: &Cid,
) -> WriteResult<(), W>
    ensures written { Writes
        (Some (flat_map section_bytes (section_at (stored_in blocks.now) name.now)))
        (W.written writer.old) (W.written writer.new) result }
    ensures memory { WantsMemoryOnlyIf W.takes_memory result }
    ensures sections { AllByRecursion IsSection (section_at (stored_in blocks.now) name.now) }
{
    match stored_bytes(blocks, name) {
        Some(block) => push_section(writer, name, block),
        None => Ok(()),
    }
}
