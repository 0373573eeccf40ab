//! Says what a block is.

ghost use Rattle.std.specs.Prelude.{◌≡◌, MatchResult};
ghost use Rattle.ipld_tree.specs.Cid.{cid_bytes};
ghost use Rattle.files_unix_fs.specs.Held.{held_parts};
ghost use Rattle.files_unix_fs.specs.Files.{codec_of, total_of};
ghost use Rattle.files_unix_fs.specs.Entities.{size_or, IsSaid, IsEntity, IsNoEntity};

use crate::file_error::FileError;
use crate::kind::Kind;
use crate::message::UnixFs;
use crate::node::{NodeError, read_message};
use crate::part::content_of;
use crate::totals::total_in;
use crate::wanted::{DAG_PB, RAW, codec_in};
use ipld_tree::Cid;

/// The kinds of blocks that files and directories are made of.
#[derive(Clone, Copy, Debug)]
pub enum Entity<'a> {
    /// A file or a part of one, and its size in bytes: the size that the node announces, or else
    /// the sum of the bytes in it and its block sizes. `None` if that sum is 2^64 or more.
    File(Option<u64>),
    Directory,
    /// A part of a directory in shards.
    Shard,
    /// A symbolic link, and the path that it leads to.
    Symlink(&'a [u8]),
    /// Metadata that old writers keep beside a file's bytes.
    Metadata,
}

/// Returns what the block under the CID is. No size that a node announces is compared with the
/// blocks below it.
pub fn read_entity<'a>(cid: &Cid, block: &'a [u8]) -> Result<Entity<'a>, FileError>
    ensures { MatchResult result
        (λ entity. IsEntity entity (codec_of (cid_bytes cid.now)) block.now)
        (λ e. IsNoEntity e (codec_of (cid_bytes cid.now)) block.now) }
{
    let codec = codec_in(cid);
    match codec {
        RAW => Ok(Entity::File(Some(block.len() as u64))),
        DAG_PB => match read_message(block) {
            Ok(said) => Ok(entity_in(&said)),
            Err(NodeError::NotANode(fault)) => Err(FileError::NotANode(fault)),
            Err(NodeError::NoData) => Err(FileError::NoData),
            Err(NodeError::NoMessage(fault)) => Err(FileError::NoMessage(fault)),
        },
        _ => Err(FileError::OtherCodec(codec)),
    }
}

/// Returns what a node with this message is.
fn entity_in<'a>(said: &UnixFs<'a>) -> Entity<'a>
    ensures { IsSaid result (held_parts said.now) }
{
    match said.kind {
        Kind::File | Kind::Raw => Entity::File(size_in(said)),
        Kind::Directory => Entity::Directory,
        Kind::HamtShard => Entity::Shard,
        Kind::Symlink => Entity::Symlink(content_of(said)),
        Kind::Metadata => Entity::Metadata,
    }
}

/// Returns the size of a file in bytes: as announced, or else the sum of its parts. `None` if that
/// is 2^64 or more.
fn size_in(said: &UnixFs<'_>) -> Option<u64>
    ensures { result ≡ size_or (held_parts said.now).file_size (total_of (held_parts said.now)) }
{
    match said.file_size {
        Some(size) => Some(size),
        None => total_in(content_of(said).len(), said.sizes),
    }
}
