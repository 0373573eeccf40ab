//! Reads one block of a file.

ghost use Rattle.std.specs.Prelude.{◌≡◌, ◌<◌, MatchResult, map, ◌↔◌, IsTrue};
ghost use Rattle.ipld_tree.specs.Cid.{cid_bytes};
ghost use Rattle.files_unix_fs.specs.Held.{held_parts};
ghost use Rattle.files_unix_fs.specs.Nodes.{or_nothing};
ghost use Rattle.files_unix_fs.specs.Files.{codec_of, is_file};
ghost use Rattle.files_unix_fs.specs.Reading.{asked, HasPart, IsNoPart, IsFileNode};

use crate::file_error::FileError;
use crate::kind::Kind;
use crate::message::UnixFs;
use crate::node::{NodeError, read_message};
use crate::totals::{has_empty_part, is_announced};
use crate::wanted::{DAG_PB, RAW, Wanted, codec_in, wanted_below};
use std::alloc::Global;

/// The file's bytes in a block, and the blocks that are wanted after them.
#[derive(Drop)]
pub(crate) struct Part<'a> {
    pub content: &'a [u8],
    pub after: Vec<Wanted>,
}

/// Reads the block that is wanted, under its CID.
pub(crate) fn read_part<'a>(
    alloc: Global,
    wanted: &Wanted,
    block: &'a [u8],
) -> Result<Part<'a>, FileError>
    ensures { MatchResult result
        (λ part. HasPart (asked wanted.now) block.now part.content.now (map asked part.after.items))
        (λ e. IsNoPart e (asked wanted.now) block.now) }
{
    if wanted.depth == 0 {
        return Err(FileError::TooDeep);
    }
    let codec = codec_in(&wanted.cid);
    match codec {
        RAW => read_leaf(alloc, wanted, block),
        DAG_PB => read_node(alloc, wanted, block),
        _ => Err(FileError::OtherCodec(codec)),
    }
}

/// Reads a leaf. All of its bytes are the file's.
fn read_leaf<'a>(alloc: Global, wanted: &Wanted, block: &'a [u8]) -> Result<Part<'a>, FileError>
    requires codec { codec_of (cid_bytes wanted.now.cid) ≡ 0x55 }
    requires deep { 0 < wanted.now.depth }
    ensures { MatchResult result
        (λ part. HasPart (asked wanted.now) block.now part.content.now (map asked part.after.items))
        (λ e. IsNoPart e (asked wanted.now) block.now) }
{
    if !is_announced(wanted.size, block.len(), b"") {
        return Err(FileError::WrongSize);
    }
    Ok(Part {
        content: block,
        after: Vec::new(alloc),
    })
}

/// Reads a node: the file's bytes in it, and the blocks under its links.
fn read_node<'a>(alloc: Global, wanted: &Wanted, block: &'a [u8]) -> Result<Part<'a>, FileError>
    requires codec { codec_of (cid_bytes wanted.now.cid) ≡ 0x70 }
    requires deep { 0 < wanted.now.depth }
    ensures { MatchResult result
        (λ part. HasPart (asked wanted.now) block.now part.content.now (map asked part.after.items))
        (λ e. IsNoPart e (asked wanted.now) block.now) }
{
    match read_message(block) {
        Ok(file) => read_file(alloc, wanted, block, &file),
        Err(NodeError::NotANode(fault)) => Err(FileError::NotANode(fault)),
        Err(NodeError::NoData) => Err(FileError::NoData),
        Err(NodeError::NoMessage(fault)) => Err(FileError::NoMessage(fault)),
    }
}

/// Reads a node with this message: the file's bytes in it, and the blocks under its links.
fn read_file<'a>(
    alloc: Global,
    wanted: &Wanted,
    block: &[u8],
    file: &UnixFs<'a>,
) -> Result<Part<'a>, FileError>
    requires node { IsFileNode (asked wanted.now) block.now (held_parts file.now) }
    ensures { MatchResult result
        (λ part. HasPart (asked wanted.now) block.now part.content.now (map asked part.after.items))
        (λ e. IsNoPart e (asked wanted.now) block.now) }
{
    if !is_file_kind(file.kind) {
        return Err(FileError::NotAFile(file.kind));
    }
    if has_empty_part(file.sizes) {
        return Err(FileError::EmptyPart);
    }
    let content = content_of(file);
    if !is_announced(file.file_size, content.len(), file.sizes) {
        return Err(FileError::WrongSize);
    }
    if !is_announced(wanted.size, content.len(), file.sizes) {
        return Err(FileError::WrongSize);
    }
    let after = wanted_below(alloc, wanted.depth - 1, block, file.sizes)?;
    Ok(Part { content, after })
}

/// Returns the bytes of the file that are in the node itself, or the path that a symbolic link
/// leads to.
pub(crate) fn content_of<'a>(file: &UnixFs<'a>) -> &'a [u8]
    ensures { result.now ≡ or_nothing (held_parts file.now).content }
{
    match file.content {
        Some(content) => content,
        None => b"",
    }
}

/// Returns whether a node of this kind has bytes of a file.
fn is_file_kind(kind: Kind) -> bool
    ensures { result ≡ is_file kind }
{
    match kind {
        Kind::File | Kind::Raw => true,
        _ => false,
    }
}
