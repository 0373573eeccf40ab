//! Paths of names, through directories.

ghost use Rattle.std.specs.Prelude.{◌≡◌, option_map, MatchResult, IfOk};
ghost use Rattle.ipld_paths.specs.Paths.{segments};
ghost use Rattle.ipld_links.specs.Reaching.{Stored, AreBytesOf, stored_in};
ghost use Rattle.dag_pb.specs.Node.{HasNode};
ghost use Rattle.program_parts.specs.FileNames.{HasEntryIn, NamesNothingIn, HasEntry, NamesNothing};
ghost use Rattle.program_parts.specs.FileNames.{LeadsByNames, EndsByNames, directory_error_name, names_line};

use crate::line::{line_of, missing_line};
use crate::stop::cause_name;
use crate::verdict::verdict_line;
use files_unix_fs::{DirectoryError, find_entry};
use ipld_links::{Verdict, stored_bytes, verify};
use ipld_paths::{bytes_under, next_segment};
use ipld_tree::Cid;
use std::alloc::{AllocError, Global};
use std::collections::BTreeMap;
use text_cid::cid_text;

/// Why a name leads nowhere from a block.
#[derive(Debug, Drop)]
pub enum NoEntry {
    /// No block is stored under the CID.
    Missing,
    /// The bytes under the CID do not match it, or are not a block of its codec.
    NoBlock(Verdict),
    /// The node is not a directory that can be read.
    NoDirectory(DirectoryError),
    /// The directory has no entry with this name, or the block is not a DAG-PB node.
    Nothing,
}

/// Where a path of names ends, if it leads to no block.
#[derive(Debug, Drop)]
pub struct NamesEnd<'p> {
    /// The block where the name leads nowhere.
    pub block: Cid,
    pub name: &'p str,
    pub cause: NoEntry,
}

/// Returns the CID that the name leads to from the node.
fn entry_in(block: &[u8], name: &str) -> Result<Cid, NoEntry>
    requires { HasNode block.now }
    ensures { MatchResult result (HasEntryIn block.now name.now) (NamesNothingIn block.now name.now) }
{
    match find_entry(block, name.as_bytes()) {
        Ok(Some(next)) => Ok(next),
        Ok(None) => Err(NoEntry::Nothing),
        Err(error) => Err(NoEntry::NoDirectory(error)),
    }
}

/// Returns the CID that the name leads to from the block with this CID and these bytes.
fn entry_named(cid: &Cid, bytes: &[u8], name: &str) -> Result<Cid, NoEntry>
    ensures { (stored : Stored) → AreBytesOf stored cid.now bytes.now → MatchResult result
        (HasEntry stored cid.now name.now) (NamesNothing stored cid.now name.now) }
{
    match verify(cid, bytes) {
        Verdict::Node => entry_in(bytes, name),
        Verdict::Block(_) => Err(NoEntry::Nothing),
        Verdict::NotRead => Err(NoEntry::Nothing),
        Verdict::LinksNotRead => Err(NoEntry::Nothing),
        Verdict::Refused(error) => Err(NoEntry::NoBlock(Verdict::Refused(error))),
        Verdict::NoNode(error) => Err(NoEntry::NoBlock(Verdict::NoNode(error))),
        Verdict::OtherBytes => Err(NoEntry::NoBlock(Verdict::OtherBytes)),
        Verdict::Unverified => Err(NoEntry::NoBlock(Verdict::Unverified)),
    }
}

/// Returns the CID that the name leads to from the block of this CID, given the bytes stored under
/// it.
pub fn entry_stored(cid: &Cid, stored: Option<&[u8]>, name: &str) -> Result<Cid, NoEntry>
    ensures { (all : Stored) → all cid.now ≡ option_map (λ b. b.now) stored.entry
        → MatchResult result (HasEntry all cid.now name.now) (NamesNothing all cid.now name.now) }
{
    match bytes_under(cid, stored) {
        Some(bytes) => entry_named(cid, bytes, name),
        None => Err(NoEntry::Missing),
    }
}

/// Returns the CID that the path of names leads to from the root, over the blocks of the map.
pub fn find_named<'p>(
    blocks: &BTreeMap<Cid, Vec<u8>>,
    root: &Cid,
    path: &'p str,
) -> Result<Cid, NamesEnd<'p>>
    ensures { MatchResult result
        (LeadsByNames (stored_in blocks.now) root.now (segments path.now))
        (EndsByNames (stored_in blocks.now) root.now (segments path.now)) }
{
    let mut block = *root;
    let mut left = path;
    while let Some((name, more)) = next_segment(left) {
        match entry_stored(&block, stored_bytes(blocks, &block), name) {
            Ok(next) => {
                block = next;
                left = more;
            }
            Err(cause) => return Err(NamesEnd { block, name, cause }),
        }
    }
    Ok(block)
}

/// Returns the name of the refusal's variant, or of its cause if the data is not a UnixFS message.
fn directory_error_name(error: &DirectoryError) -> &'static str
    ensures { result.now ≡ directory_error_name error.now }
{
    match error {
        DirectoryError::NotANode(_) => "NotANode",
        DirectoryError::NoData => "NoData",
        DirectoryError::NoMessage(fault) => cause_name(&fault.cause),
        DirectoryError::InShards => "InShards",
        DirectoryError::NotADirectory(_) => "NotADirectory",
    }
}

/// Returns the line that says why a path of names leads to no block.
pub fn names_line(alloc: Global, end: &NamesEnd<'_>) -> Result<Vec<u8>, AllocError>
    ensures { IfOk result (λ v. v.items ≡ names_line end.now) }
{
    match &end.cause {
        NoEntry::Missing => missing_line(alloc, &end.block),
        NoEntry::NoBlock(verdict) => {
            let (line, _well) = verdict_line(alloc, &end.block, verdict)?;
            Ok(line)
        }
        NoEntry::NoDirectory(error) => {
            line_of(
                alloc,
                &cid_text(&end.block),
                b" refused ",
                directory_error_name(error).as_bytes(),
            )
        }
        NoEntry::Nothing => {
            line_of(
                alloc,
                &cid_text(&end.block),
                b" has nothing at ",
                end.name.as_bytes(),
            )
        }
    }
}
