//! `roots`, `add-root` and `drop-root`: the roots that a store keeps, and those that a command
//! uses.

ghost use Rattle.std.specs.Prelude.{◌⊎◌, IfOk, OnOk, IfErr, codes};
ghost use Rattle.sqlite_trees.specs.View.{IsClean};
ghost use Rattle.store_on_disk.specs.Ends.{Quiet};
ghost use Rattle.store_on_disk.specs.Stored.{IsKeptBy, JustReads, FailsByStore};
ghost use Rattle.ipld_links.specs.Reaching.{NoneTwice};
ghost use Rattle.program_dagstore.specs.Changes.{Changes, SaysTakenOut};
ghost use Rattle.program_dagstore.specs.Roots.{SaysRoots, AreMeant, RootsUnread, HasAddedRoots};
ghost use Rattle.program_dagstore.specs.Roots.{AddsToRoots, DropsRoots, SplitsRoots, Drops};
ghost use Rattle.program_dagstore.specs.Said.{StoreFails};

use crate::fault::Fault;
use crate::taken::{Taken, give_up, lines_of, say_taken};
use ipld_paths::each_once;
use ipld_tree::Cid;
use program_parts::say;
use std::alloc::Global;
use std::io::Write;
use store_on_disk::{BlockStore, Store, StoreRefusal};

/// The message if no root is given, and none is stored.
pub const NO_ROOTS: &[u8] = b"dagstore: no roots are stored; name some, or add-root\n";

/// Writes the roots, one a line, in their order.
pub fn list_roots<S: Store, W: Write>(
    alloc: Global,
    store: &mut BlockStore<S>,
    output: &mut W,
) -> Result<bool, Fault>
    ensures says { SaysRoots (S.Store.view store.old) (W.contents output.old) result
        (S.Store.view store.new) (W.contents output.new) }
    ensures fault { IfErr result (StoreFails S.Store store.old store.new) }
    ensures reads { JustReads S.Store result store.old store.new }
{
    let names = store.roots()?;
    let lines = lines_of(alloc, &names, b"")?;
    let well = say((lines, true), output)?;
    Ok(well)
}

/// Returns the roots that are given or, if none is, those that the store keeps.
pub fn meant_roots<S: Store>(
    store: &mut BlockStore<S>,
    given: Vec<Cid>,
) -> Result<Vec<Cid>, StoreRefusal>
    ensures ok { IfOk result (λ roots. AreMeant (S.Store.view store.old) (S.Store.view store.new)
        given.items roots.items) }
    ensures refused { IfErr result (RootsUnread S.Store given.items store.old store.new) }
    ensures reads { JustReads S.Store result store.old store.new }
{
    if given.is_empty() {
        store.roots()
    } else {
        Ok(given)
    }
}

/// Adds each of the names after the other roots, unless it is one already, and commits that. All of
/// them are added, or none.
pub fn add_roots<S: Store>(store: &mut BlockStore<S>, names: &[Cid]) -> Result<bool, Fault>
    ensures added { AddsToRoots S.Store names.now store.old result store.new }
    ensures crash { (db : _) → S.Store.recovers store.new db → S.Store.recovers store.old db
        ⊎ (IsClean (S.Store.view store.new) → HasAddedRoots (S.Store.view store.old) names.now db) }
    ensures kept { IsKeptBy S.Store store.old store.new }
{
    match store.add_roots(names) {
        Ok(()) => match store.commit() {
            Ok(()) => Ok(true),
            Err(refusal) => Err(Fault::Store(refusal)),
        },
        Err(refusal) => {
            store.rollback();
            Err(Fault::Store(refusal))
        }
    }
}

/// Removes the names from the roots, and counts those that were roots. No name may be given twice.
fn drop_each<S: Store>(
    alloc: Global,
    store: &mut BlockStore<S>,
    names: &[Cid],
) -> Result<Taken, StoreRefusal>
    requires { NoneTwice names.now }
    ensures ok { OnOk result (IsClean (S.Store.view store.new)
        → Changes (DropsRoots names.now) (S.Store.view store.old) (S.Store.view store.new)) }
    ensures splits { IfOk result (λ taken. IsClean (S.Store.view store.new)
        → SplitsRoots (S.Store.view store.old) names.now taken) }
    ensures refused { IfErr result (FailsByStore S.Store ⊥ store.old store.new) }
    ensures quiet { Quiet S.Store store.old store.new }
{
    let mut taken = Taken::new(alloc);
    for name in names {
        let was_there = store.remove_root(name)?;
        if taken.note(name, was_there).is_err() {
            return Err(give_up(store));
        }
    }
    Ok(taken)
}

/// Removes the names from the roots, and commits that. A name given twice counts once.
fn drop_out<S: Store>(
    alloc: Global,
    store: &mut BlockStore<S>,
    names: &[Cid],
) -> Result<Taken, StoreRefusal>
    ensures ok { IfOk result (Drops S.Store names.now store.old store.new) }
    ensures refused { IfErr result (FailsByStore S.Store ⊥ store.old store.new) }
    ensures crash { (db : _) → S.Store.recovers store.new db → S.Store.recovers store.old db
        ⊎ (IsClean (S.Store.view store.new) → DropsRoots names.now (S.Store.view store.old).trees db) }
    ensures kept { IsKeptBy S.Store store.old store.new }
{
    let Ok(once) = each_once(alloc, names) else {
        return Err(give_up(store));
    };
    let taken = drop_each(alloc, store, &once)?;
    store.commit()?;
    Ok(taken)
}

/// Removes the names from the roots, and writes how many were roots. Reports each name that was
/// not, one a line. Returns whether all were. A name given twice counts once.
pub fn drop_roots<S: Store, W: Write, V: Write>(
    alloc: Global,
    store: &mut BlockStore<S>,
    names: &[Cid],
    output: &mut W,
    errors: &mut V,
) -> Result<bool, Fault>
    ensures says { SaysTakenOut S.Store (Drops S.Store names.now) (codes " no root") store.old
        (W.contents output.old) (V.contents errors.old) result store.new (W.contents output.new)
        (V.contents errors.new) }
    ensures crash { (db : _) → S.Store.recovers store.new db → S.Store.recovers store.old db
        ⊎ (IsClean (S.Store.view store.new) → DropsRoots names.now (S.Store.view store.old).trees db) }
    ensures kept { IsKeptBy S.Store store.old store.new }
{
    match drop_out(alloc, store, names) {
        Ok(taken) => say_taken(alloc, &taken, b" no root", output, errors),
        Err(refusal) => Err(Fault::Store(refusal)),
    }
}
