//! `cat`: the bytes of a file.

ghost use Rattle.std.specs.Prelude.{◌≡◌, [], List, map, option_map, true, false, Some, None, IfOk};
ghost use Rattle.ipld_links.specs.Reaching.{Stored, stored_in};
ghost use Rattle.files_unix_fs.specs.Reading.{Asked, asked};
ghost use Rattle.program_parts.specs.Content.{IsReadTo, IsNextName, SaysContent, SaysNext, TellsStop};

use crate::stop::{Stop, is_of_file, stop_line, take_stored};
use files_unix_fs::FileReader;
use ipld_links::stored_bytes;
use ipld_tree::Cid;
use program_shared::{ToolError, write_all};
use std::alloc::Global;
use std::collections::BTreeMap;
use std::io::Write;

/// The most levels of links in a file, the root included.
pub const MOST_DEPTH: u32 = 256;

/// Returns a reader of the file under the root that has read nothing yet.
pub fn begin_content(alloc: Global, root: &Cid) -> Result<FileReader, ToolError>
    ensures { IfOk result (λ reader. (stored : Stored)
        → IsReadTo stored root.now [] (map asked reader.wanted.items)) }
{
    match FileReader::new(alloc, *root, MOST_DEPTH) {
        Ok(reader) => Ok(reader),
        Err(_) => Err(ToolError::OutOfMemory),
    }
}

/// Writes an error line that says why reading stops at the block of this CID. If the reason is out
/// of memory, returns that error instead.
fn tell_stop<V: Write>(
    alloc: Global,
    name: &Cid,
    stop: &Stop,
    errors: &mut V,
) -> Result<(), ToolError>
    ensures { TellsStop name.now stop.now (V.contents errors.old) result (V.contents errors.new) }
{
    if !is_of_file(stop) {
        return Err(ToolError::OutOfMemory);
    }
    let line = stop_line(alloc, name, stop)?;
    write_all(errors, &line)
}

/// Writes the file's bytes in the block of this CID, which is wanted next, given the bytes stored
/// under it. Returns `None` if the file may go on; else whether it is read to its end.
pub fn say_block<W: Write, V: Write>(
    alloc: Global,
    reader: &mut FileReader,
    name: &Cid,
    stored: Option<&[u8]>,
    output: &mut W,
    errors: &mut V,
) -> Result<Option<bool>, ToolError>
    ensures { (all : Stored) (below : List Asked) (w : Asked)
        → all name.now ≡ option_map (λ b. b.now) stored.entry
        → IsNextName (map asked reader.old.wanted.items) below w name.now
        → SaysNext all (map asked reader.old.wanted.items) (map asked reader.new.wanted.items)
        (W.contents output.old) (V.contents errors.old) result (W.contents output.new)
        (V.contents errors.new) }
{
    match take_stored(alloc, reader, name, stored) {
        Ok(piece) => {
            write_all(output, piece)?;
            Ok(None)
        }
        Err(stop) => {
            tell_stop(alloc, name, &stop, errors)?;
            Ok(Some(false))
        }
    }
}

/// Writes the file's bytes in its next block, if one is wanted. Returns `None` if the file may go
/// on; else whether it is read to its end.
fn say_next<W: Write, V: Write>(
    alloc: Global,
    blocks: &BTreeMap<Cid, Vec<u8>>,
    reader: &mut FileReader,
    output: &mut W,
    errors: &mut V,
) -> Result<Option<bool>, ToolError>
    ensures { SaysNext (stored_in blocks.now) (map asked reader.old.wanted.items)
        (map asked reader.new.wanted.items) (W.contents output.old) (V.contents errors.old) result
        (W.contents output.new) (V.contents errors.new) }
{
    let Some(wanted) = reader.next_wanted() else {
        return Ok(Some(true));
    };
    let name = wanted.cid;
    // No effect at run time. The proof reads what is known of a CID from this call.
    let _version = name.version();
    say_block(
        alloc,
        reader,
        &name,
        stored_bytes(blocks, &name),
        output,
        errors,
    )
}

/// Writes the bytes of the file under the root, block by block as they are verified, or an error
/// line that says why they end early. Returns whether the file is whole.
pub fn say_content<W: Write, V: Write>(
    alloc: Global,
    root: &Cid,
    blocks: &BTreeMap<Cid, Vec<u8>>,
    output: &mut W,
    errors: &mut V,
) -> Result<bool, ToolError>
    ensures { SaysContent (stored_in blocks.now) root.now (W.contents output.old)
        (V.contents errors.old) result (W.contents output.new) (V.contents errors.new) }
{
    let mut reader = begin_content(alloc, root)?;
    for _count in 0..u64::MAX {
        if let Some(well) = say_next(alloc, blocks, &mut reader, output, errors)? {
            return Ok(well);
        }
    }
    Err(ToolError::OutOfMemory)
}
