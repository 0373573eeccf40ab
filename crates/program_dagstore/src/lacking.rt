//! `check`: the roots that have no block.

ghost use Rattle.std.specs.Prelude.{◌≡◌, [], ◌∷◌, ◌++◌, OnOk, IfOk, IfErr, MatchBool};
ghost use Rattle.sqlite_trees.specs.View.{IsClean};
ghost use Rattle.store_on_disk.specs.Stored.{JustReads, FailsByStore};
ghost use Rattle.store_on_disk.specs.Collecting.{HasBlockAt};
ghost use Rattle.program_dagstore.specs.Said.{StoreFails};
ghost use Rattle.program_dagstore.specs.Lacking.{AddsLacking, ListsLacking, LeavesStored};
ghost use Rattle.program_dagstore.specs.Lacking.{SaysLacking, SaysStoreChecked};

use crate::check::check_blocks;
use crate::fault::Fault;
use crate::progress::Progress;
use ipld_links::IDENTITY;
use ipld_tree::Cid;
use program_parts::{missing_lines, say};
use std::alloc::{AllocError, Global};
use std::io::Write;
use store_on_disk::{BlockStore, Store, StoreRefusal};

/// Returns whether a block is listed under the name, or the name holds it inline.
fn has_block_at<S: Store>(store: &mut BlockStore<S>, name: &Cid) -> Result<bool, StoreRefusal>
    ensures has { IfOk result (λ has. IsClean (S.Store.view store.new)
        → MatchBool has (HasBlockAt (S.Store.view store.old) name.now)
        (¬ HasBlockAt (S.Store.view store.old) name.now)) }
    ensures refused { IfErr result (FailsByStore S.Store ⊥ store.old store.new) }
    ensures reads { JustReads S.Store result store.old store.new }
{
    if name.hash_code() == IDENTITY {
        return Ok(true);
    }
    store.contains(name)
}

/// Appends the name to the list.
fn push_name(list: &mut Vec<Cid>, name: &Cid) -> Result<(), AllocError>
    ensures { OnOk result (list.new.items ≡ list.old.items ++ name.now ∷ []) }
{
    list.push(*name)?;
    Ok(())
}

/// Appends the name to the list if it has no block.
fn add_if_lacking<S: Store>(
    store: &mut BlockStore<S>,
    name: &Cid,
    lacking: &mut Vec<Cid>,
) -> Result<(), Fault>
    ensures added { OnOk result (IsClean (S.Store.view store.new)
        → AddsLacking (S.Store.view store.old) name.now lacking.old.items lacking.new.items) }
    ensures fault { IfErr result (StoreFails S.Store store.old store.new) }
    ensures reads { JustReads S.Store result store.old store.new }
{
    let has = has_block_at(store, name)?;
    if has {
        return Ok(());
    }
    push_name(lacking, name)?;
    Ok(())
}

/// Returns the names that have no block, in their order.
fn lacking_of<S: Store>(
    alloc: Global,
    store: &mut BlockStore<S>,
    names: &[Cid],
) -> Result<Vec<Cid>, Fault>
    ensures left { IfOk result (λ v. IsClean (S.Store.view store.new)
        → LeavesStored (S.Store.view store.old) names.now v.items) }
    ensures fault { IfErr result (StoreFails S.Store store.old store.new) }
    ensures reads { JustReads S.Store result store.old store.new }
{
    let mut lacking = Vec::new(alloc);
    for name in names {
        add_if_lacking(store, name, &mut lacking)?;
    }
    Ok(lacking)
}

/// Returns the roots that have no block, in their order.
fn lacking_roots<S: Store>(alloc: Global, store: &mut BlockStore<S>) -> Result<Vec<Cid>, Fault>
    ensures lists { IfOk result (λ v. IsClean (S.Store.view store.new)
        → ListsLacking (S.Store.view store.old) v.items) }
    ensures fault { IfErr result (StoreFails S.Store store.old store.new) }
    ensures reads { JustReads S.Store result store.old store.new }
{
    let names = store.roots()?;
    lacking_of(alloc, store, &names)
}

/// Writes a line for each root that has no block. Returns whether each has one.
fn check_roots<S: Store, W: Write>(
    alloc: Global,
    store: &mut BlockStore<S>,
    output: &mut W,
) -> Result<bool, Fault>
    ensures says { SaysLacking (S.Store.view store.old) (W.contents output.old) result
        (S.Store.view store.new) (W.contents output.new) }
    ensures fault { IfErr result (StoreFails S.Store store.old store.new) }
    ensures reads { JustReads S.Store result store.old store.new }
{
    let lacking = lacking_roots(alloc, store)?;
    let lines = missing_lines(alloc, &lacking)?;
    let well = say((lines, lacking.is_empty()), output)?;
    Ok(well)
}

/// Writes what `check_blocks` does, and then a line for each root that has no block. Returns
/// whether all is well.
pub fn check_store<S: Store, W: Write, E: Write>(
    alloc: Global,
    store: &mut BlockStore<S>,
    output: &mut W,
    progress: &mut Progress<E>,
) -> Result<bool, Fault>
    ensures says { SaysStoreChecked (S.Store.view store.old) (W.contents output.old) result
        (S.Store.view store.new) (W.contents output.new) }
    ensures fault { IfErr result (StoreFails S.Store store.old store.new) }
    ensures reads { JustReads S.Store result store.old store.new }
{
    let links = check_blocks(alloc, store, output, progress)?;
    let roots = check_roots(alloc, store, output)?;
    Ok(links & roots)
}
