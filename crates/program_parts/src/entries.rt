//! `ls`: what is under a path of names.

ghost use Rattle.std.specs.Prelude.{◌≡◌, ◌++◌, codes, option_map, IfOk};
ghost use Rattle.text_cid.specs.Texts.{cid_text};
ghost use Rattle.ipld_paths.specs.Paths.{segments};
ghost use Rattle.ipld_links.specs.Reaching.{Stored, stored_in};
ghost use Rattle.dag_pb.specs.Node.{NodeParts, IsNode};
ghost use Rattle.files_unix_fs.specs.Reading.{HasRow};
ghost use Rattle.program_parts.specs.Lines.{line, IsSaidOfEach, SaysBoth};
ghost use Rattle.program_parts.specs.Entries.{IsEntityAt, IsEntry, own_line, IsListed, IsListingUnder, IsListing};

use crate::data::Answer;
use crate::entry::{entity_stored, entity_words, entry_said};
use crate::file_names::{find_named, names_line};
use crate::line::{Said, line_of, say_both};
use crate::stop::stop_line;
use dag_pb::next_link;
use files_unix_fs::Entity;
use ipld_links::stored_bytes;
use ipld_tree::Cid;
use program_shared::ToolError;
use std::alloc::{AllocError, Global};
use std::collections::BTreeMap;
use std::io::Write;
use text_cid::cid_text;

/// What is listed for a block.
#[derive(Debug, Drop)]
pub enum Listed<'b> {
    /// The whole output.
    Whole(Answer),
    /// The entries of the directory with these bytes.
    Entries(&'b [u8]),
}

/// Returns the lines of the links in the block, and whether the kind of each is known.
fn entries_said(
    alloc: Global,
    block: &[u8],
    blocks: &BTreeMap<Cid, Vec<u8>>,
) -> Result<Said, AllocError>
    requires { HasRow block.now }
    ensures { (node : NodeParts) → IsNode block.now node → IfOk result
        (λ p. IsSaidOfEach (IsEntry (stored_in blocks.now)) node.links p.1 p.0.items) }
{
    let mut known = BTreeMap::new(alloc);
    let mut lines = Vec::new(alloc);
    let mut well = true;
    let mut links = block;
    while let Some((link, more)) = next_link(links) {
        let (line, has_kind) = entry_said(alloc, &link, blocks, &mut known)?;
        lines.extend_from_slice(&line)?;
        well = well && has_kind;
        links = more;
    }
    Ok((lines, well))
}

/// Returns the line of a block that is not a directory.
fn own_line(alloc: Global, cid: &Cid, entity: &Entity<'_>) -> Result<Vec<u8>, AllocError>
    ensures { IfOk result (λ v. v.items ≡ own_line cid.now entity.now) }
{
    let words = entity_words(alloc, entity)?;
    line_of(alloc, &words, &cid_text(cid), b"")
}

/// Returns the line of a sharded directory, which is not listed.
fn shard_line(alloc: Global, cid: &Cid) -> Result<Vec<u8>, AllocError>
    ensures { IfOk result (λ v. v.items ≡ line (cid_text cid.now ++ codes " refused InShards")) }
{
    line_of(alloc, &cid_text(cid), b" refused InShards", b"")
}

/// Returns what is listed for a block that is this entity.
fn listed_of<'b>(
    alloc: Global,
    cid: &Cid,
    block: &'b [u8],
    entity: &Entity<'_>,
) -> Result<Listed<'b>, AllocError>
    ensures { (stored : Stored) → IsEntityAt stored cid.now block.now entity.now
        → IfOk result (IsListed stored cid.now) }
{
    match entity {
        Entity::Directory => Ok(Listed::Entries(block)),
        Entity::Shard => {
            let line = shard_line(alloc, cid)?;
            Ok(Listed::Whole(((Vec::new(alloc), false), line)))
        }
        Entity::File(_) | Entity::Symlink(_) | Entity::Metadata => {
            let line = own_line(alloc, cid, entity)?;
            Ok(Listed::Whole(((line, true), Vec::new(alloc))))
        }
    }
}

/// Returns what is listed for the block under the CID, given the bytes stored under it.
pub fn listed_stored<'b>(
    alloc: Global,
    cid: &'b Cid,
    stored: Option<&'b [u8]>,
) -> Result<Listed<'b>, AllocError>
    ensures { (all : Stored) → all cid.now ≡ option_map (λ b. b.now) stored.entry
        → IfOk result (IsListed all cid.now) }
{
    match entity_stored(cid, stored) {
        Ok((block, entity)) => listed_of(alloc, cid, block, &entity),
        Err(stop) => {
            let line = stop_line(alloc, cid, &stop)?;
            Ok(Listed::Whole(((Vec::new(alloc), false), line)))
        }
    }
}

/// Returns the output for the block under the CID.
fn listing_under(
    alloc: Global,
    cid: &Cid,
    blocks: &BTreeMap<Cid, Vec<u8>>,
) -> Result<Answer, AllocError>
    ensures { IfOk result (λ p. IsListingUnder (stored_in blocks.now) cid.now p.0.1 p.0.0.items
        p.1.items) }
{
    match listed_stored(alloc, cid, stored_bytes(blocks, cid)) {
        Ok(Listed::Whole(answer)) => Ok(answer),
        Ok(Listed::Entries(block)) => {
            let said = entries_said(alloc, block, blocks)?;
            Ok((said, Vec::new(alloc)))
        }
        Err(error) => Err(error),
    }
}

/// Returns the output for what is under the path.
fn listing(
    alloc: Global,
    root: &Cid,
    path: &str,
    blocks: &BTreeMap<Cid, Vec<u8>>,
) -> Result<Answer, AllocError>
    ensures { IfOk result (λ p. IsListing (stored_in blocks.now) root.now (segments path.now) p.0.1
        p.0.0.items p.1.items) }
{
    match find_named(blocks, root, path) {
        Ok(found) => listing_under(alloc, &found, blocks),
        Err(end) => {
            let line = names_line(alloc, &end)?;
            Ok(((Vec::new(alloc), false), line))
        }
    }
}

/// Lists what is under the path from the root. For a directory: each entry, with its kind, its size
/// and its CID. For another block: the same of itself. If there is nothing to list: an error line
/// that says why. Returns whether the kind of all that is listed is known. Makes the lines in
/// memory, and then writes them.
pub fn say_entries<W: Write, V: Write>(
    alloc: Global,
    root: &Cid,
    path: &str,
    blocks: &BTreeMap<Cid, Vec<u8>>,
    output: &mut W,
    errors: &mut V,
) -> Result<bool, ToolError>
    ensures { SaysBoth (IsListing (stored_in blocks.now) root.now (segments path.now))
        (W.contents output.old) (V.contents errors.old) result
        (W.contents output.new) (V.contents errors.new) }
{
    let (said, told) = listing(alloc, root, path, blocks)?;
    say_both(said, &told, output, errors)
}
