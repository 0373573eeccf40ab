//! Gathers the blocks on a path's way to which the index of a file leads. Anyone may have made the
//! index, so each block is verified before a link in it is followed.

ghost use Rattle.std.specs.Prelude.{IfOk};
ghost use Rattle.ipld_paths.specs.Paths.{segments};
ghost use Rattle.ipld_links.specs.Reaching.{stored_in};
ghost use Rattle.program_index.specs.Ways.{LooksUp, IsGathered};

use crate::find::{Found, find_block};
use files_index::ReadAt;
use ipld_links::stored_bytes;
use ipld_paths::{End, Step, resolve_step};
use ipld_tree::Cid;
use program_shared::ToolError;
use std::alloc::Global;
use std::collections::BTreeMap;

/// What an index yields for a path's way.
#[derive(Drop)]
pub enum Gathered {
    /// The blocks on the way.
    Blocks(BTreeMap<Cid, Vec<u8>>),
    /// No entry leads to one of them.
    NoEntry,
    /// The file has no index.
    NoIndex,
}

/// Adds the block of this CID to the map, if the index leads to it. Returns whether the file has an
/// index.
fn look_up<S: ReadAt>(
    alloc: Global,
    source: &S,
    name: &Cid,
    blocks: &mut BTreeMap<Cid, Vec<u8>>,
) -> Result<bool, ToolError>
    ensures { IfOk result (λ has. LooksUp (S.bytes source.now) name.now (stored_in blocks.old) has
        (stored_in blocks.new)) }
{
    // A path can reach a block twice.
    if stored_bytes(blocks, name).is_some() {
        return Ok(true);
    }
    match find_block(alloc, source, name)? {
        Found::Block(block) => match blocks.insert(*name, block) {
            Ok(_) => Ok(true),
            Err(_) => Err(ToolError::OutOfMemory),
        },
        Found::NoEntry => Ok(true),
        Found::NoIndex => Ok(false),
    }
}

/// Returns the blocks on the path's way from the root, by the index of the file. Reads only what
/// `find_block` reads for each of them.
pub fn gather_way<S: ReadAt>(
    alloc: Global,
    source: &S,
    root: &Cid,
    path: &str,
) -> Result<Gathered, ToolError>
    ensures { IfOk result (IsGathered (S.bytes source.now) root.now (segments path.now)) }
{
    let mut blocks = BTreeMap::new(alloc);
    let mut name = *root;
    let mut left = path;
    for _count in 0..u64::MAX {
        if !look_up(alloc, source, &name, &mut blocks)? {
            return Ok(Gathered::NoIndex);
        }
        match resolve_step(alloc, &name, stored_bytes(&blocks, &name), left) {
            Ok(Step::GoesOn(next)) => {
                name = next.block;
                left = next.path;
            }
            Ok(Step::Ends(end)) => match end {
                End::NotHeld => return Ok(Gathered::NoEntry),
                _ => return Ok(Gathered::Blocks(blocks)),
            },
            Err(_) => return Err(ToolError::OutOfMemory),
        }
    }
    // Only a cycle of links leads here, so no run does.
    Err(ToolError::OutOfMemory)
}
