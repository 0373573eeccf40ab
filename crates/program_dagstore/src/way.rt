//! The blocks on the way of a path, read from a store.

ghost use Rattle.std.specs.Prelude.{IfOk, OnOk, IfErr};
ghost use Rattle.sqlite_trees.specs.View.{IsClean};
ghost use Rattle.ipld_paths.specs.Paths.{segments};
ghost use Rattle.ipld_links.specs.Reaching.{stored_in};
ghost use Rattle.store_on_disk.specs.Stored.{JustReads};
ghost use Rattle.program_dagstore.specs.Blocks.{GetFails};
ghost use Rattle.program_dagstore.specs.Ways.{HoldsNameToo, HoldsWay, WayFails};

use crate::fault::Fault;
use ipld_links::stored_bytes;
use ipld_paths::{Step, resolve_step};
use ipld_tree::Cid;
use program_shared::ToolError;
use std::alloc::Global;
use std::collections::BTreeMap;
use store_on_disk::{BlockStore, Store};

/// Adds the block under the name, if one is stored, to those in memory.
fn hold<S: Store>(
    store: &mut BlockStore<S>,
    name: &Cid,
    held: &mut BTreeMap<Cid, Vec<u8>>,
) -> Result<(), Fault>
    ensures held { OnOk result (IsClean (S.Store.view store.new)
        → HoldsNameToo (S.Store.view store.old) name.now (stored_in held.old) (stored_in held.new)) }
    ensures fault { IfErr result (GetFails S.Store name.now store.old store.new) }
    ensures reads { JustReads S.Store result store.old store.new }
{
    let Some(block) = store.get_block(name)? else {
        return Ok(());
    };
    match held.insert(*name, block) {
        Ok(_none) => Ok(()),
        Err(_) => Err(Fault::Tool(ToolError::OutOfMemory)),
    }
}

/// Returns the blocks that are stored under the names on the path's way from the root. They are in
/// memory.
pub fn gather_way<S: Store>(
    alloc: Global,
    store: &mut BlockStore<S>,
    root: &Cid,
    path: &str,
) -> Result<BTreeMap<Cid, Vec<u8>>, Fault>
    ensures held { IfOk result (λ held. IsClean (S.Store.view store.new)
        → HoldsWay (S.Store.view store.old) root.now (segments path.now) (stored_in held)) }
    ensures fault { IfErr result (WayFails S.Store root.now (segments path.now) store.old store.new) }
    ensures reads { JustReads S.Store result store.old store.new }
{
    let mut held = BTreeMap::new(alloc);
    let mut block = *root;
    let mut left = path;
    for _count in 0..u64::MAX {
        hold(store, &block, &mut held)?;
        match resolve_step(alloc, &block, stored_bytes(&held, &block), left) {
            Ok(Step::GoesOn(next)) => {
                block = next.block;
                left = next.path;
            }
            Ok(Step::Ends(_end)) => return Ok(held),
            Err(_) => return Err(Fault::Tool(ToolError::OutOfMemory)),
        }
    }
    Err(Fault::Tool(ToolError::OutOfMemory))
}
