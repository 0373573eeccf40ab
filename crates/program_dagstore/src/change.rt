//! `put`, `remove` and `gc`: blocks that are stored and removed.

ghost use Rattle.std.specs.Prelude.{◌≡◌, ◌⊎◌, OnOk, IfOk, IfErr, MatchResult, codes};
ghost use Rattle.sqlite_trees.specs.View.{IsClean};
ghost use Rattle.store_on_disk.specs.Collecting.{KeepsReachable};
ghost use Rattle.store_on_disk.specs.Ends.{Quiet};
ghost use Rattle.store_on_disk.specs.Stored.{IsKeptBy, IsAddedTo, ListsName, FailsByStore};
ghost use Rattle.ipld_links.specs.Reaching.{NoneTwice};
ghost use Rattle.ipld_links.specs.Sound.{IsSound};
ghost use Rattle.program_parts.specs.Lines.{SaysText};
ghost use Rattle.program_dagstore.specs.Changes.{IsUnfit, name_as, cid_line, SaysPut};
ghost use Rattle.program_dagstore.specs.Changes.{SaysCollected, ListsOthers, Changes, Splits};
ghost use Rattle.program_dagstore.specs.Changes.{Removes, SaysTakenOut};
ghost use Rattle.program_dagstore.specs.Roots.{CollectsMeant, KeepsMeant};

use crate::export::tell_wrong;
use crate::fault::Fault;
use crate::roots::{NO_ROOTS, meant_roots};
use crate::taken::{Taken, give_up, say_removed, say_taken};
use ipld_links::{SHA2_256, check_block, name_of_block};
use ipld_paths::each_once;
use ipld_tree::Cid;
use program_parts::named_line;
use program_shared::{ToolError, write_all};
use std::alloc::Global;
use std::io::Write;
use store_on_disk::{BlockStore, Store, StoreRefusal};

/// Returns the name of the block: a CID of version 1, with this codec and the block's SHA-256.
pub fn name_as(codec: u64, block: &[u8]) -> Cid
    ensures { result ≡ name_as codec block.now }
{
    let name = name_of_block(block);
    Cid::new_v1(codec, SHA2_256, name.digest()).unwrap()
}

/// Writes the line of a name.
fn say_name<W: Write>(alloc: Global, name: &Cid, output: &mut W) -> Result<(), ToolError>
    ensures { SaysText (cid_line name.now) (W.contents output.old) result (W.contents output.new) }
{
    let line = named_line(alloc, b"", name)?;
    write_all(output, &line)
}

/// Checks that the block is one that a store accepts under its name of this codec. `put_block`
/// refuses the same blocks, but this needs no store, so that none is made for a bad block.
pub fn check_put(codec: u64, block: &[u8]) -> Result<(), StoreRefusal>
    ensures { MatchResult result (λ _. IsSound (name_as codec block.now, block.now))
        (IsUnfit (name_as codec block.now, block.now)) }
{
    match check_block(&name_as(codec, block), block) {
        Ok(()) => Ok(()),
        Err(cause) => Err(StoreRefusal::Unsound(cause)),
    }
}

/// Stores the block under its name of this codec, commits it, and then writes the name.
pub fn put_block<S: Store, W: Write>(
    alloc: Global,
    store: &mut BlockStore<S>,
    codec: u64,
    block: &[u8],
    output: &mut W,
) -> Result<bool, Fault>
    ensures says { SaysPut S.Store (name_as codec block.now) block.now store.old (W.contents output.old)
        result store.new (W.contents output.new) }
    ensures crash { (db : _) → S.Store.recovers store.new db → S.Store.recovers store.old db
        ⊎ (IsClean (S.Store.view store.new)
        → IsAddedTo (S.Store.view store.old).trees db (name_as codec block.now) block.now) }
    ensures kept { IsKeptBy S.Store store.old store.new }
{
    let name = name_as(codec, block);
    match store.put_block(&name, block) {
        Ok(()) => match say_name(alloc, &name, output) {
            Ok(()) => Ok(true),
            Err(error) => Err(Fault::Tool(error)),
        },
        Err(refusal) => Err(Fault::Store(refusal)),
    }
}

/// Removes the blocks under the names, and counts those that were listed. No name may be given
/// twice.
fn take_each<S: Store>(
    alloc: Global,
    store: &mut BlockStore<S>,
    names: &[Cid],
) -> Result<Taken, StoreRefusal>
    requires { NoneTwice names.now }
    ensures ok { OnOk result (IsClean (S.Store.view store.new)
        → Changes (ListsOthers names.now) (S.Store.view store.old) (S.Store.view store.new)) }
    ensures splits { IfOk result (λ taken. IsClean (S.Store.view store.new)
        → Splits (ListsName (S.Store.view store.old)) names.now taken) }
    ensures refused { IfErr result (FailsByStore S.Store ⊥ store.old store.new) }
    ensures quiet { Quiet S.Store store.old store.new }
{
    let mut taken = Taken::new(alloc);
    for name in names {
        let was_there = store.remove(name)?;
        if taken.note(name, was_there).is_err() {
            return Err(give_up(store));
        }
    }
    Ok(taken)
}

/// Removes the blocks under the names, and commits that. A name given twice counts once.
fn take_out<S: Store>(
    alloc: Global,
    store: &mut BlockStore<S>,
    names: &[Cid],
) -> Result<Taken, StoreRefusal>
    ensures ok { IfOk result (Removes S.Store names.now store.old store.new) }
    ensures refused { IfErr result (FailsByStore S.Store ⊥ store.old store.new) }
    ensures crash { (db : _) → S.Store.recovers store.new db → S.Store.recovers store.old db
        ⊎ (IsClean (S.Store.view store.new) → ListsOthers names.now (S.Store.view store.old).trees db) }
    ensures kept { IsKeptBy S.Store store.old store.new }
{
    let Ok(once) = each_once(alloc, names) else {
        return Err(give_up(store));
    };
    let taken = take_each(alloc, store, &once)?;
    store.commit()?;
    Ok(taken)
}

/// Removes the blocks under the names, and writes how many. Reports each name that was not listed,
/// one a line. Returns whether all were. A name given twice counts once.
pub fn remove_blocks<S: Store, W: Write, V: Write>(
    alloc: Global,
    store: &mut BlockStore<S>,
    names: &[Cid],
    output: &mut W,
    errors: &mut V,
) -> Result<bool, Fault>
    ensures says { SaysTakenOut S.Store (Removes S.Store names.now) (codes " no block") store.old
        (W.contents output.old) (V.contents errors.old) result store.new (W.contents output.new)
        (V.contents errors.new) }
    ensures crash { (db : _) → S.Store.recovers store.new db → S.Store.recovers store.old db
        ⊎ (IsClean (S.Store.view store.new) → ListsOthers names.now (S.Store.view store.old).trees db) }
    ensures kept { IsKeptBy S.Store store.old store.new }
{
    match take_out(alloc, store, names) {
        Ok(taken) => say_taken(alloc, &taken, b" no block", output, errors),
        Err(refusal) => Err(Fault::Store(refusal)),
    }
}

/// Keeps only the blocks that links lead to from the roots, and writes how many names were removed.
pub fn collect_blocks<S: Store, W: Write>(
    alloc: Global,
    store: &mut BlockStore<S>,
    roots: &[Cid],
    output: &mut W,
) -> Result<bool, Fault>
    ensures says { SaysCollected S.Store roots.now store.old (W.contents output.old) result
        store.new (W.contents output.new) }
    ensures crash { (db : _) → S.Store.recovers store.new db → S.Store.recovers store.old db
        ⊎ (IsClean (S.Store.view store.new) → KeepsReachable (S.Store.view store.old) roots.now db) }
    ensures kept { IsKeptBy S.Store store.old store.new }
{
    match store.keep_reachable(roots) {
        Ok(count) => match say_removed(alloc, count, output) {
            Ok(()) => Ok(true),
            Err(error) => Err(Fault::Tool(error)),
        },
        Err(refusal) => Err(Fault::Store(refusal)),
    }
}

/// Keeps only the blocks that links lead to from the roots that are given or, if none is, those
/// that are stored, and writes how many names were removed. If there is no root at all, it reports
/// that and removes nothing.
pub fn collect_meant<S: Store, W: Write, V: Write>(
    alloc: Global,
    store: &mut BlockStore<S>,
    given: Vec<Cid>,
    output: &mut W,
    errors: &mut V,
) -> Result<bool, Fault>
    ensures says { CollectsMeant S.Store given.items store.old (W.contents output.old)
        (V.contents errors.old) result store.new (W.contents output.new) (V.contents errors.new) }
    ensures crash { (db : _) → S.Store.recovers store.new db → S.Store.recovers store.old db
        ⊎ (IsClean (S.Store.view store.new)
        → KeepsMeant (S.Store.view store.old) (S.Store.view store.new) given.items db) }
    ensures kept { IsKeptBy S.Store store.old store.new }
{
    match meant_roots(store, given) {
        Ok(roots) => {
            if roots.is_empty() {
                return tell_wrong(NO_ROOTS, errors);
            }
            collect_blocks(alloc, store, &roots, output)
        }
        Err(refusal) => Err(Fault::Store(refusal)),
    }
}
