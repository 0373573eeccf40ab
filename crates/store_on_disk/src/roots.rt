//! The roots that a store keeps besides its blocks.

ghost use Rattle.std.specs.Prelude.{◌≡◌, [], ◌∷◌, IfOk, IfErr, OnOk};
ghost use Rattle.sqlite_trees.specs.View.{IsClean, KeepsSchema};
ghost use Rattle.store_rows.specs.Ends.{Quiet};
ghost use Rattle.store_on_disk.specs.Stored.{JustReads, FailsByStore};
ghost use Rattle.store_on_disk.specs.Roots.{HasRoots, IsRootTaken, KeepsRoots, MayKeepRoots};
ghost use Rattle.store_on_disk.specs.Roots.{AreRootsAdded, RootsRefused, HasJust, KnowsRoots};
ghost use Rattle.store_on_disk.specs.Roots.{IsRootAdded, RootRefused};

use crate::error::StoreRefusal;
use crate::store::{BlockStore, bad_root, disown, told, undo};
use arrayvec::ArrayVec;
use ipld_links::CidSet;
use ipld_tree::Cid;
use sqlite_trees::store::{Shape, Store};
use std::alloc::{AllocError, Global};
use store_rows::roots::{self, ROOTS};

impl<S: Store> BlockStore<S> {
    /// Returns the roots, in their order. A file of the earlier version has none. It refuses with
    /// `BadRoot` if the table has a row that no store writes.
    pub fn roots(&mut self) -> Result<Vec<Cid>, StoreRefusal>
        ensures ok { IfOk result (λ names. IsClean (S.Store.view self.new)
            → HasRoots (S.Store.view self.old) names.items) }
        ensures schema { OnOk result (KeepsSchema (S.Store.view self.old) (S.Store.view self.new)) }
        ensures refused { IfErr result (FailsByStore S.Store ⊥ self.old self.new) }
        ensures reads { JustReads S.Store result self.old self.new }
    {
        match roots::list(self.alloc, &mut self.store, &mut self.row) {
            Ok(Some(names)) => Ok(names),
            Ok(None) => Err(disown(&mut self.store, bad_root(&self.row))),
            Err(error) => Err(undo(&mut self.store, error)),
        }
    }

    /// Makes the name the last root, unless it is a root already, as of the next commit. It is
    /// `add_roots` of this name alone. No block need be stored under it.
    pub fn add_root(&mut self, name: &Cid) -> Result<(), StoreRefusal>
        ensures ok { OnOk result (IsClean (S.Store.view self.new)
            → AreRootsAdded (S.Store.view self.old) (S.Store.view self.new) (name.now ∷ [])) }
        ensures table { OnOk result (KeepsRoots (S.Store.view self.old)) }
        ensures refused { IfErr result (RootsRefused S.Store (name.now ∷ []) self.old self.new) }
        ensures quiet { Quiet S.Store self.old self.new }
    {
        self.add_roots(&[*name])
    }

    /// Makes each of the names a root, one after the other, as of the next commit: a name that is
    /// not yet a root goes after the others. The rows are read once. If a name is refused and the
    /// store did not fail, the names before it become roots with the next commit.
    ///
    /// A file of the earlier version keeps no roots (`EarlierVersion`). If the table has a row that
    /// no store writes, it refuses with `BadRoot`.
    pub fn add_roots(&mut self, names: &[Cid]) -> Result<(), StoreRefusal>
        ensures ok { OnOk result (IsClean (S.Store.view self.new)
            → AreRootsAdded (S.Store.view self.old) (S.Store.view self.new) names.now) }
        ensures table { OnOk result (MayKeepRoots (S.Store.view self.old) names.now) }
        ensures refused { IfErr result (RootsRefused S.Store names.now self.old self.new) }
        ensures quiet { Quiet S.Store self.old self.new }
    {
        if names.is_empty() {
            return Ok(());
        }
        if self.store.shape(ROOTS) == Shape::Absent {
            return Err(StoreRefusal::EarlierVersion);
        }
        let mut known = self.known_roots()?;
        for name in names {
            self.add_unknown(name, &mut known)?;
        }
        Ok(())
    }

    /// Returns the set of the roots.
    fn known_roots(&mut self) -> Result<CidSet, StoreRefusal>
        ensures ok { IfOk result (λ known. IsClean (S.Store.view self.new)
            → KnowsRoots (S.Store.view self.old) known) }
        ensures schema { OnOk result (KeepsSchema (S.Store.view self.old) (S.Store.view self.new)) }
        ensures refused { IfErr result (FailsByStore S.Store ⊥ self.old self.new) }
        ensures reads { JustReads S.Store result self.old self.new }
    {
        let names = self.roots()?;
        match set_of(self.alloc, &names) {
            Ok(known) => Ok(known),
            Err(_) => Err(self.give_up()),
        }
    }

    /// Makes the name the last root and adds it to `known`, the set of the roots, unless it is
    /// there already.
    fn add_unknown(&mut self, name: &Cid, known: &mut CidSet) -> Result<(), StoreRefusal>
        requires table { KeepsRoots (S.Store.view self.old) }
        requires known { IsClean (S.Store.view self.old) → KnowsRoots (S.Store.view self.old) known.old }
        ensures ok { OnOk result (IsClean (S.Store.view self.new)
            → IsRootAdded (S.Store.view self.old) (S.Store.view self.new) name.now) }
        ensures known { OnOk result (IsClean (S.Store.view self.new)
            → KnowsRoots (S.Store.view self.new) known.new) }
        ensures shape { OnOk result ((S.Store.view self.new).shape ≡ (S.Store.view self.old).shape) }
        ensures refused { IfErr result (RootRefused S.Store name.now self.old self.new) }
        ensures quiet { Quiet S.Store self.old self.new }
    {
        if known.contains(name) {
            return Ok(());
        }
        if known.add(*name).is_err() {
            return Err(self.give_up());
        }
        let mut form = ArrayVec::new();
        name.write_bytes(&mut form);
        match roots::append(&mut self.store, &mut self.row, &form) {
            Ok(added) => told(added),
            Err(error) => Err(undo(&mut self.store, error)),
        }
    }

    /// Removes the name from the roots as of the next commit, and returns whether it was one.
    pub fn remove_root(&mut self, name: &Cid) -> Result<bool, StoreRefusal>
        ensures ok { IfOk result (λ taken. IsClean (S.Store.view self.new)
            → IsRootTaken (S.Store.view self.old) (S.Store.view self.new) name.now taken) }
        ensures refused { IfErr result (FailsByStore S.Store ⊥ self.old self.new) }
        ensures quiet { Quiet S.Store self.old self.new }
    {
        let mut form = ArrayVec::new();
        name.write_bytes(&mut form);
        match roots::take(&mut self.store, &mut self.row, &form) {
            Ok(taken) => Ok(taken),
            Err(error) => Err(undo(&mut self.store, error)),
        }
    }
}

/// Returns the set of the names.
fn set_of(alloc: Global, names: &[Cid]) -> Result<CidSet, AllocError>
    ensures { IfOk result (λ known. HasJust names.now known) }
{
    let mut known = CidSet::new(alloc);
    for name in names {
        known.add(*name)?;
    }
    Ok(known)
}
