//! The blocks of a file that are wanted next.

ghost use Rattle.std.specs.Prelude.{◌≡◌, ◌++◌, ◌∷◌, [], MatchResult, map, Some};
ghost use Rattle.ipld_tree.specs.Cid.{cid_bytes};
ghost use Rattle.files_unix_fs.specs.declared.file_error.FileError.TheVariants.{OutOfMemory};
ghost use Rattle.files_unix_fs.specs.UnixFs.{sizes_of};
ghost use Rattle.files_unix_fs.specs.Nodes.{cids_of};
ghost use Rattle.files_unix_fs.specs.Files.{codec_of};
ghost use Rattle.files_unix_fs.specs.Reading.{HasRow, asked, paired, IsNoPairing};

use crate::file_error::FileError;
use crate::sizes::next_size;
use dag_pb::next_link;
use ipld_tree::Cid;
use std::alloc::Global;

/// The codec of leaves (multicodec table).
pub(crate) const RAW: u64 = 0x55;

/// The codec of nodes (multicodec table).
pub(crate) const DAG_PB: u64 = 0x70;

/// A block that is wanted.
#[derive(Clone, Copy, Debug)]
pub struct Wanted {
    pub cid: Cid,
    /// The number of bytes of the file in and below this block, if the node above announced it.
    pub size: Option<u64>,
    /// How many blocks deep links may lead, this one included.
    pub depth: u32,
}

/// Returns the codec of the block under the CID.
pub(crate) fn codec_in(cid: &Cid) -> u64
    ensures { result ≡ codec_of (cid_bytes cid.now) }
{
    match cid.version() {
        0 => DAG_PB,
        _ => cid.codec(),
    }
}

/// Appends a block to the wanted ones.
pub(crate) fn push_one(wanted: &mut Vec<Wanted>, one: Wanted) -> Result<(), FileError>
    ensures { MatchResult result
        (λ _. wanted.new.items ≡ wanted.old.items ++ one ∷ [])
        (λ e. (e ≡ OutOfMemory) × (wanted.new.items ≡ wanted.old.items)) }
{
    match wanted.push(one) {
        Ok(()) => Ok(()),
        Err(_refused) => Err(FileError::OutOfMemory),
    }
}

/// Returns the blocks under the links of a node, each with its size, in the order of the links.
pub(crate) fn wanted_below(
    alloc: Global,
    depth: u32,
    block: &[u8],
    sizes: &[u8],
) -> Result<Vec<Wanted>, FileError>
    requires { HasRow block.now }
    ensures { MatchResult result
        (λ v. paired depth (cids_of block.now) (sizes_of sizes.now) ≡ Some (map asked v.items))
        (λ e. IsNoPairing e (cids_of block.now) (paired depth (cids_of block.now) (sizes_of sizes.now))) }
{
    let mut wanted = Vec::new(alloc);
    let mut links = block;
    let mut rest = sizes;
    while let Some((link, more_links)) = next_link(links) {
        let Some((size, more_sizes)) = next_size(rest) else {
            return Err(FileError::WrongLinks);
        };
        let below = Wanted {
            cid: link.hash,
            size: Some(size),
            depth,
        };
        push_one(&mut wanted, below)?;
        links = more_links;
        rest = more_sizes;
    }
    match next_size(rest) {
        None => Ok(wanted),
        Some(_more) => Err(FileError::WrongLinks),
    }
}
