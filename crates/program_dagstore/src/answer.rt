//! The commands of the program: what each writes, and its exit status.

ghost use Rattle.std.specs.Prelude.{Result, Bool, Option, List, ℕ, ◌⊎◌, IfErr, codes};
ghost use Rattle.sqlite_trees.specs.View.{IsClean};
ghost use Rattle.ipld_paths.specs.Paths.{segments};
ghost use Rattle.program_parts.specs.Entries.{IsListing};
ghost use Rattle.store_on_disk.specs.Ends.{Quiet};
ghost use Rattle.store_on_disk.specs.Stored.{IsAddedTo, IsKeptBy, JustReads};
ghost use Rattle.program_dagstore.specs.Blocks.{SaysCount, IsGotBlock, GetFails, Has};
ghost use Rattle.program_dagstore.specs.Changes.{name_as, SaysPut, ListsOthers, Removes, SaysTakenOut};
ghost use Rattle.program_dagstore.specs.Contents.{OfGot, SaysFile, IsOfFile, FailsAt};
ghost use Rattle.program_dagstore.specs.Directories.{IsOfListing};
ghost use Rattle.program_dagstore.specs.Lacking.{SaysStoreChecked};
ghost use Rattle.program_dagstore.specs.Names.{IsListedLine, SaysNames};
ghost use Rattle.program_dagstore.specs.Refusals.{ExitsSo};
ghost use Rattle.program_dagstore.specs.Roots.{SaysRoots, ExportsMeant, CollectsMeant, KeepsMeant};
ghost use Rattle.program_dagstore.specs.Roots.{HasAddedRoots, AddsToRoots, DropsRoots, Drops};
ghost use Rattle.program_dagstore.specs.Said.{StoreFails, SaysAll};
ghost use Rattle.program_dagstore.specs.Trees.{SaysTree};
ghost use Rattle.program_dagstore.specs.Ways.{IsAnswerIn, WayFails};
ghost use Rattle.program_dagstore.specs.declared.fault.Fault.{Fault};

use crate::at::write_at;
use crate::block::{count_blocks, get_block, has_block};
use crate::change::{collect_meant, put_block, remove_blocks};
use crate::directory::write_listing;
use crate::export::{export_meant, write_tree};
use crate::file::write_file;
use crate::lacking::check_store;
use crate::list::list_blocks;
use crate::progress::Progress;
use crate::refusal::end;
use crate::roots::{add_roots, drop_roots, list_roots};
use ipld_tree::Cid;
use std::alloc::Global;
use std::io::Write;
use store_on_disk::{BlockStore, Store};

/// Runs `list`, and returns the exit status.
pub fn answer_list<S: Store, W: Write, V: Write>(
    alloc: Global,
    store: &mut BlockStore<S>,
    output: &mut W,
    errors: &mut V,
) -> u8
    ensures { (ended : Result Bool Fault)
        × ExitsSo ended result (V.contents errors.old) (V.contents errors.new)
        × SaysNames IsListedLine (S.Store.view store.old) (W.contents output.old) ended
        (S.Store.view store.new) (W.contents output.new) × JustReads S.Store ended store.old store.new
        × IfErr ended (StoreFails S.Store store.old store.new) }
{
    end(list_blocks(alloc, store, output), errors)
}

/// Runs `check`, and returns the exit status.
pub fn answer_check<S: Store, W: Write, V: Write, E: Write>(
    alloc: Global,
    store: &mut BlockStore<S>,
    output: &mut W,
    errors: &mut V,
    progress: &mut Progress<E>,
) -> u8
    ensures { (ended : Result Bool Fault)
        × ExitsSo ended result (V.contents errors.old) (V.contents errors.new)
        × SaysStoreChecked (S.Store.view store.old) (W.contents output.old) ended (S.Store.view store.new)
        (W.contents output.new) × JustReads S.Store ended store.old store.new
        × IfErr ended (StoreFails S.Store store.old store.new) }
{
    end(check_store(alloc, store, output, progress), errors)
}

/// Runs `count`, and returns the exit status.
pub fn answer_count<S: Store, W: Write, V: Write>(
    alloc: Global,
    store: &mut BlockStore<S>,
    output: &mut W,
    errors: &mut V,
) -> u8
    ensures { (ended : Result Bool Fault)
        × ExitsSo ended result (V.contents errors.old) (V.contents errors.new)
        × SaysCount (S.Store.view store.old) (W.contents output.old) ended (S.Store.view store.new)
        (W.contents output.new) × JustReads S.Store ended store.old store.new
        × IfErr ended (StoreFails S.Store store.old store.new) }
{
    end(count_blocks(alloc, store, output), errors)
}

/// Runs `roots`, and returns the exit status.
pub fn answer_roots<S: Store, W: Write, V: Write>(
    alloc: Global,
    store: &mut BlockStore<S>,
    output: &mut W,
    errors: &mut V,
) -> u8
    ensures { (ended : Result Bool Fault)
        × ExitsSo ended result (V.contents errors.old) (V.contents errors.new)
        × SaysRoots (S.Store.view store.old) (W.contents output.old) ended (S.Store.view store.new)
        (W.contents output.new) × JustReads S.Store ended store.old store.new
        × IfErr ended (StoreFails S.Store store.old store.new) }
{
    end(list_roots(alloc, store, output), errors)
}

/// Runs `export`, and returns the exit status.
pub fn answer_export<S: Store, W: Write, V: Write>(
    store: &mut BlockStore<S>,
    given: Vec<Cid>,
    output: &mut W,
    errors: &mut V,
) -> u8
    ensures answers { (ended : Result Bool Fault)
        × ExitsSo ended result (V.contents errors.old) (V.contents errors.new)
        × ExportsMeant S.Store given.items store.old (W.contents output.old) ended store.new
        (W.contents output.new) }
    ensures quiet { Quiet S.Store store.old store.new }
{
    end(export_meant(store, given, output), errors)
}

/// Runs `get`, and returns the exit status.
pub fn answer_get<S: Store, W: Write, V: Write>(
    alloc: Global,
    store: &mut BlockStore<S>,
    name: &Cid,
    output: &mut W,
    errors: &mut V,
) -> u8
    ensures { (ended : Result Bool Fault) × (heard : Option (List ℕ))
        × SaysAll (IsGotBlock name.now (S.Store.view store.old) (S.Store.view store.new))
        (W.contents output.old) (V.contents errors.old) ended (W.contents output.new) heard
        × JustReads S.Store ended store.old store.new
        × IfErr ended (GetFails S.Store name.now store.old store.new)
        × ExitsSo ended result heard (V.contents errors.new) }
{
    let ended = get_block(alloc, store, name, output, errors);
    end(ended, errors)
}

/// Runs `at`, and returns the exit status.
pub fn answer_at<S: Store, W: Write, V: Write>(
    alloc: Global,
    store: &mut BlockStore<S>,
    is_raw: bool,
    root: &Cid,
    path: &str,
    output: &mut W,
    errors: &mut V,
) -> u8
    ensures { (ended : Result Bool Fault) × (heard : Option (List ℕ))
        × SaysAll (IsAnswerIn is_raw root.now (segments path.now) (S.Store.view store.old)
        (S.Store.view store.new)) (W.contents output.old) (V.contents errors.old) ended
        (W.contents output.new) heard × JustReads S.Store ended store.old store.new
        × IfErr ended (WayFails S.Store root.now (segments path.now) store.old store.new)
        × ExitsSo ended result heard (V.contents errors.new) }
{
    let ended = write_at(alloc, store, is_raw, root, path, output, errors);
    end(ended, errors)
}

/// Runs `cat`, and returns the exit status.
pub fn answer_cat<S: Store, W: Write, V: Write>(
    alloc: Global,
    store: &mut BlockStore<S>,
    root: &Cid,
    path: &str,
    output: &mut W,
    errors: &mut V,
) -> u8
    ensures { (ended : Result Bool Fault) × (heard : Option (List ℕ))
        × OfGot (S.Store.view store.old) (S.Store.view store.new) (λ stored. SaysFile stored root.now
        (segments path.now) (W.contents output.old) (V.contents errors.old) ended
        (W.contents output.new) heard) × JustReads S.Store ended store.old store.new
        × IfErr ended (FailsAt S.Store (IsOfFile root.now (segments path.now)) store.old store.new)
        × ExitsSo ended result heard (V.contents errors.new) }
{
    let ended = write_file(alloc, store, root, path, output, errors);
    end(ended, errors)
}

/// Runs `ls`, and returns the exit status.
pub fn answer_ls<S: Store, W: Write, V: Write>(
    alloc: Global,
    store: &mut BlockStore<S>,
    root: &Cid,
    path: &str,
    output: &mut W,
    errors: &mut V,
) -> u8
    ensures { (ended : Result Bool Fault) × (heard : Option (List ℕ))
        × OfGot (S.Store.view store.old) (S.Store.view store.new) (λ stored. SaysAll
        (IsListing stored root.now (segments path.now)) (W.contents output.old) (V.contents errors.old)
        ended (W.contents output.new) heard) × JustReads S.Store ended store.old store.new
        × IfErr ended (FailsAt S.Store (IsOfListing root.now (segments path.now)) store.old store.new)
        × ExitsSo ended result heard (V.contents errors.new) }
{
    let ended = write_listing(alloc, store, root, path, output, errors);
    end(ended, errors)
}

/// Runs `has`, and returns the exit status. It writes no output.
pub fn answer_has<S: Store, V: Write>(store: &mut BlockStore<S>, name: &Cid, errors: &mut V) -> u8
    ensures answers { (ended : Result Bool Fault)
        × ExitsSo ended result (V.contents errors.old) (V.contents errors.new)
        × Has S.Store name.now store.old ended store.new }
    ensures quiet { Quiet S.Store store.old store.new }
{
    end(has_block(store, name), errors)
}

/// Runs `tree`, and returns the exit status.
pub fn answer_tree<S: Store, W: Write, V: Write>(
    alloc: Global,
    store: &mut BlockStore<S>,
    root: &Cid,
    output: &mut W,
    errors: &mut V,
) -> u8
    ensures answers { (ended : Result Bool Fault) × (heard : Option (List ℕ))
        × SaysTree S.Store root.now store.old (W.contents output.old) (V.contents errors.old) ended
        store.new (W.contents output.new) heard × ExitsSo ended result heard (V.contents errors.new) }
    ensures quiet { Quiet S.Store store.old store.new }
{
    let ended = write_tree(alloc, store, root, output, errors);
    end(ended, errors)
}

/// Runs `put`, and returns the exit status.
pub fn answer_put<S: Store, W: Write, V: Write>(
    alloc: Global,
    store: &mut BlockStore<S>,
    codec: u64,
    block: &[u8],
    output: &mut W,
    errors: &mut V,
) -> u8
    ensures answers { (ended : Result Bool Fault)
        × ExitsSo ended result (V.contents errors.old) (V.contents errors.new)
        × SaysPut S.Store (name_as codec block.now) block.now store.old (W.contents output.old) ended
        store.new (W.contents output.new) }
    ensures crash { (db : _) → S.Store.recovers store.new db → S.Store.recovers store.old db
        ⊎ (IsClean (S.Store.view store.new)
        → IsAddedTo (S.Store.view store.old).trees db (name_as codec block.now) block.now) }
    ensures kept { IsKeptBy S.Store store.old store.new }
{
    end(put_block(alloc, store, codec, block, output), errors)
}

/// Runs `remove`, and returns the exit status.
pub fn answer_remove<S: Store, W: Write, V: Write>(
    alloc: Global,
    store: &mut BlockStore<S>,
    names: &[Cid],
    output: &mut W,
    errors: &mut V,
) -> u8
    ensures answers { (ended : Result Bool Fault) × (heard : Option (List ℕ))
        × SaysTakenOut S.Store (Removes S.Store names.now) (codes " no block") store.old
        (W.contents output.old) (V.contents errors.old) ended store.new (W.contents output.new) heard
        × ExitsSo ended result heard (V.contents errors.new) }
    ensures crash { (db : _) → S.Store.recovers store.new db → S.Store.recovers store.old db
        ⊎ (IsClean (S.Store.view store.new) → ListsOthers names.now (S.Store.view store.old).trees db) }
    ensures kept { IsKeptBy S.Store store.old store.new }
{
    let ended = remove_blocks(alloc, store, names, output, errors);
    end(ended, errors)
}

/// Runs `gc`, and returns the exit status.
pub fn answer_collect<S: Store, W: Write, V: Write>(
    alloc: Global,
    store: &mut BlockStore<S>,
    given: Vec<Cid>,
    output: &mut W,
    errors: &mut V,
) -> u8
    ensures answers { (ended : Result Bool Fault) × (heard : Option (List ℕ))
        × CollectsMeant S.Store given.items store.old (W.contents output.old) (V.contents errors.old) ended
        store.new (W.contents output.new) heard × ExitsSo ended result heard (V.contents errors.new) }
    ensures crash { (db : _) → S.Store.recovers store.new db → S.Store.recovers store.old db
        ⊎ (IsClean (S.Store.view store.new)
        → KeepsMeant (S.Store.view store.old) (S.Store.view store.new) given.items db) }
    ensures kept { IsKeptBy S.Store store.old store.new }
{
    let ended = collect_meant(alloc, store, given, output, errors);
    end(ended, errors)
}

/// Runs `add-root`, and returns the exit status. It writes no output.
pub fn answer_add_roots<S: Store, V: Write>(
    store: &mut BlockStore<S>,
    names: &[Cid],
    errors: &mut V,
) -> u8
    ensures answers { (ended : Result Bool Fault)
        × ExitsSo ended result (V.contents errors.old) (V.contents errors.new)
        × AddsToRoots S.Store names.now store.old ended store.new }
    ensures crash { (db : _) → S.Store.recovers store.new db → S.Store.recovers store.old db
        ⊎ (IsClean (S.Store.view store.new) → HasAddedRoots (S.Store.view store.old) names.now db) }
    ensures kept { IsKeptBy S.Store store.old store.new }
{
    end(add_roots(store, names), errors)
}

/// Runs `drop-root`, and returns the exit status.
pub fn answer_drop_roots<S: Store, W: Write, V: Write>(
    alloc: Global,
    store: &mut BlockStore<S>,
    names: &[Cid],
    output: &mut W,
    errors: &mut V,
) -> u8
    ensures answers { (ended : Result Bool Fault) × (heard : Option (List ℕ))
        × SaysTakenOut S.Store (Drops S.Store names.now) (codes " no root") store.old
        (W.contents output.old) (V.contents errors.old) ended store.new (W.contents output.new) heard
        × ExitsSo ended result heard (V.contents errors.new) }
    ensures crash { (db : _) → S.Store.recovers store.new db → S.Store.recovers store.old db
        ⊎ (IsClean (S.Store.view store.new) → DropsRoots names.now (S.Store.view store.old).trees db) }
    ensures kept { IsKeptBy S.Store store.old store.new }
{
    let ended = drop_roots(alloc, store, names, output, errors);
    end(ended, errors)
}
