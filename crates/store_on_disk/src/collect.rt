//! Keeping the blocks that links lead to from roots, and removing all others.

ghost use Rattle.std.specs.Prelude.{◌≡◌, ◌⊎◌, IfOk, IfErr, OnOk, option_map};
ghost use Rattle.ipld_links.specs.Sets.{Among};
ghost use Rattle.sqlite_trees.specs.View.{IsClean};
ghost use Rattle.store_rows.specs.Ends.{Quiet, KeepsOthers, IsOfBlocks};
ghost use Rattle.store_on_disk.specs.Stored.{JustReads, FailsByStore, IsKeptBy};
ghost use Rattle.store_on_disk.specs.Leaving.{StillLeavesStore};
ghost use Rattle.store_on_disk.specs.Trees.{GetsKnown, StopsAt, AtName, ReachesBeside, AtMetBeside};
ghost use Rattle.store_on_disk.specs.Trees.{IsShownToWalk, VisitsShown};
ghost use Rattle.store_on_disk.specs.Collecting.{KeepsReachable, IsCollected, CollectRefused};
ghost use Rattle.store_on_disk.specs.Collecting.{HasBlockAt, HaveBlocks, BlocksLacking, AtRooted};
ghost use Rattle.store_on_disk.specs.Collecting.{CollectsAll, MarksRoots, Marks, MarksMore};
ghost use Rattle.store_on_disk.specs.Collecting.{AtMarked, SweepsNext, IsSwept};

use crate::error::StoreRefusal;
use crate::store::BlockStore;
use ipld_links::{IDENTITY, Reached, Walk, hidden_under};
use ipld_tree::Cid;
use sqlite_trees::store::Store;
use std::alloc::AllocError;
use std::collections::BTreeSet;

/// Adds the names to the set.
fn put_all(names: &[Cid], kept: &mut BTreeSet<Cid>) -> Result<(), AllocError>
    ensures { OnOk result (CollectsAll names.now kept.old kept.new) }
{
    for name in names {
        match kept.insert(*name) {
            Ok(_added) => {}
            Err(_) => return Err(AllocError),
        }
    }
    Ok(())
}

impl<S: Store> BlockStore<S> {
    /// Keeps the blocks that links lead to from the roots, as `reach` finds them, removes all
    /// others, and commits that, with all that waited for a commit. Returns how many names were
    /// removed. A link may lead to a missing block.
    ///
    /// Nothing is changed if a root has no block (`NoBlock`), if a block that links lead to is
    /// damaged, or if the links of a block that would be kept are not known (`LinksUnread`): the
    /// blocks they lead to would be lost. One block is in memory at a time, with the names that are
    /// kept.
    pub fn keep_reachable(&mut self, roots: &[Cid]) -> Result<u64, StoreRefusal>
        ensures ok { IfOk result (λ count. IsClean (S.Store.view self.new)
            → IsCollected (S.Store.view self.old) (S.Store.view self.new) roots.now count) }
        ensures refused { IfErr result (CollectRefused S.Store roots.now self.old self.new) }
        ensures crash { (db : _) → S.Store.recovers self.new db → S.Store.recovers self.old db
            ⊎ (IsClean (S.Store.view self.new)
            → KeepsReachable (S.Store.view self.old) roots.now db) }
        ensures beside { (db : _) → S.Store.recovers self.new db → S.Store.recovers self.old db
            ⊎ (IsClean (S.Store.view self.new)
            → KeepsOthers IsOfBlocks (S.Store.view self.old).trees db) }
        ensures leaves { StillLeavesStore S.Store self.old self.new }
        ensures kept { IsKeptBy S.Store self.old self.new }
    {
        let kept = self.mark_roots(roots)?;
        let count = self.sweep(&kept)?;
        self.commit()?;
        Ok(count)
    }

    /// Returns the names that links lead to from the roots and under which bytes are stored. Each
    /// root must have a block.
    fn mark_roots(&mut self, roots: &[Cid]) -> Result<BTreeSet<Cid>, StoreRefusal>
        ensures ok { IfOk result (λ kept. IsClean (S.Store.view self.new)
            → MarksRoots (S.Store.view self.old) roots.now kept) }
        ensures refused { IfErr result (CollectRefused S.Store roots.now self.old self.new) }
        ensures reads { JustReads S.Store result self.old self.new }
    {
        self.check_roots(roots)?;
        self.mark(roots)
    }

    /// Refuses the first root that has no block.
    fn check_roots(&mut self, roots: &[Cid]) -> Result<(), StoreRefusal>
        ensures ok { OnOk result (IsClean (S.Store.view self.new)
            → HaveBlocks (S.Store.view self.old) roots.now) }
        ensures refused { IfErr result (BlocksLacking S.Store (λ n. Among n roots.now) self.old self.new) }
        ensures reads { JustReads S.Store result self.old self.new }
    {
        for root in roots {
            self.check_root(root)?;
        }
        Ok(())
    }

    /// Refuses a root if nothing is listed under it and its CID does not hold a block inline.
    fn check_root(&mut self, root: &Cid) -> Result<(), StoreRefusal>
        ensures ok { OnOk result (IsClean (S.Store.view self.new)
            → HasBlockAt (S.Store.view self.old) root.now) }
        ensures refused { IfErr result (BlocksLacking S.Store (λ n. n ≡ root.now) self.old self.new) }
        ensures reads { JustReads S.Store result self.old self.new }
    {
        if root.hash_code() == IDENTITY {
            return Ok(());
        }
        let is_listed = self.contains(root)?;
        if is_listed {
            Ok(())
        } else {
            Err(StoreRefusal::NoBlock(*root))
        }
    }

    /// Returns the names that links lead to from the roots and under which bytes are stored.
    fn mark(&mut self, roots: &[Cid]) -> Result<BTreeSet<Cid>, StoreRefusal>
        ensures ok { IfOk result (λ kept. IsClean (S.Store.view self.new)
            → Marks (S.Store.view self.old) roots.now kept) }
        ensures refused { IfErr result (StopsAt S.Store (AtRooted roots.now) self.old self.new) }
        ensures reads { JustReads S.Store result self.old self.new }
    {
        let mut kept = BTreeSet::new(self.alloc);
        for root in roots {
            self.mark_from(root, &mut kept)?;
        }
        Ok(kept)
    }

    /// Adds the names that one more root leads to.
    fn mark_from(&mut self, root: &Cid, kept: &mut BTreeSet<Cid>) -> Result<(), StoreRefusal>
        ensures ok { OnOk result (IsClean (S.Store.view self.new)
            → MarksMore (S.Store.view self.old) root.now kept.old kept.new) }
        ensures refused { IfErr result (StopsAt S.Store (AtMarked root.now kept.old) self.old self.new) }
        ensures reads { JustReads S.Store result self.old self.new }
    {
        let reached = self.reach_beside(root, kept)?;
        match put_all(&reached.found, kept) {
            Ok(()) => Ok(()),
            Err(_) => Err(self.give_up()),
        }
    }

    /// Walks from the root, and returns where links lead. The walk does not follow the links of a
    /// name in `kept`.
    pub(crate) fn reach_beside(
        &mut self,
        root: &Cid,
        kept: &BTreeSet<Cid>,
    ) -> Result<Reached, StoreRefusal>
        ensures ok { IfOk result (λ r. IsClean (S.Store.view self.new)
            → ReachesBeside (S.Store.view self.old) kept.now root.now r) }
        ensures refused { IfErr result (StopsAt S.Store (AtMetBeside root.now kept.now) self.old self.new) }
        ensures reads { JustReads S.Store result self.old self.new }
    {
        let Ok(mut walk) = Walk::new(self.alloc, root) else {
            return Err(self.give_up());
        };
        for _count in 0..u64::MAX {
            let Some(name) = walk.next() else {
                return Ok(walk.into_reached());
            };
            self.visit_beside(name, kept, &mut walk)?;
        }
        Err(self.give_up())
    }

    /// Visits the name, with its block as `shown` returns it.
    fn visit_beside(
        &mut self,
        name: Cid,
        kept: &BTreeSet<Cid>,
        walk: &mut Walk,
    ) -> Result<(), StoreRefusal>
        ensures ok { OnOk result (IsClean (S.Store.view self.new)
            → VisitsShown (S.Store.view self.old) kept.now name walk.old walk.new) }
        ensures refused { IfErr result (StopsAt S.Store (AtName name) self.old self.new) }
        ensures reads { JustReads S.Store result self.old self.new }
    {
        let block = self.shown(&name, kept)?;
        match walk.visit(name, block.as_deref()) {
            Ok(()) => Ok(()),
            Err(_) => Err(self.give_up()),
        }
    }

    /// Returns empty bytes if the name is in the set, so that a walk goes no further, and else its
    /// block.
    fn shown(&mut self, name: &Cid, kept: &BTreeSet<Cid>) -> Result<Option<Vec<u8>>, StoreRefusal>
        ensures ok { IfOk result (λ o. IsClean (S.Store.view self.new)
            → IsShownToWalk (S.Store.view self.old) kept.now name.now
            (option_map (λ b. b.items) o)) }
        ensures refused { IfErr result (StopsAt S.Store (AtName name.now) self.old self.new) }
        ensures reads { JustReads S.Store result self.old self.new }
    {
        if kept.contains(name) {
            return Ok(Some(Vec::new(self.alloc)));
        }
        self.get_known(name)
    }

    /// Returns what `get_block` does, but refuses with `LinksUnread` if the block's links are not
    /// known.
    pub(crate) fn get_known(&mut self, name: &Cid) -> Result<Option<Vec<u8>>, StoreRefusal>
        ensures ok { IfOk result (λ o. IsClean (S.Store.view self.new)
            → GetsKnown (S.Store.view self.old) name.now (option_map (λ b. b.items) o)) }
        ensures refused { IfErr result (StopsAt S.Store (AtName name.now) self.old self.new) }
        ensures reads { JustReads S.Store result self.old self.new }
    {
        let block = self.get_block(name)?;
        match hidden_under(name, block.as_deref()) {
            Some(verdict) => Err(StoreRefusal::LinksUnread(*name, verdict)),
            None => Ok(block),
        }
    }

    /// Removes each name that is not in the set, with its block. Returns how many were removed.
    fn sweep(&mut self, kept: &BTreeSet<Cid>) -> Result<u64, StoreRefusal>
        ensures ok { IfOk result (λ count. IsClean (S.Store.view self.new)
            → IsSwept (S.Store.view self.old) (S.Store.view self.new) kept.now count) }
        ensures refused { IfErr result (FailsByStore S.Store ⊥ self.old self.new) }
        ensures quiet { Quiet S.Store self.old self.new }
    {
        let mut last = None;
        let mut taken: u64 = 0;
        for _count in 0..u64::MAX {
            match self.sweep_next(last, kept)? {
                Some(next) => {
                    last = Some(next.0);
                    taken += u64::from(next.1);
                }
                None => return Ok(taken),
            }
        }
        Err(self.give_up())
    }

    /// Removes the first name after `last`, if it is not in the set. Returns it, and whether it was
    /// removed.
    fn sweep_next(
        &mut self,
        last: Option<Cid>,
        kept: &BTreeSet<Cid>,
    ) -> Result<Option<(Cid, bool)>, StoreRefusal>
        ensures ok { IfOk result (λ next. IsClean (S.Store.view self.new)
            → SweepsNext (S.Store.view self.old) (S.Store.view self.new) last kept.now next) }
        ensures refused { IfErr result (FailsByStore S.Store ⊥ self.old self.new) }
        ensures quiet { Quiet S.Store self.old self.new }
    {
        let Some(name) = self.next_name(last)? else {
            return Ok(None);
        };
        if kept.contains(&name) {
            return Ok(Some((name, false)));
        }
        let _was_listed = self.remove(&name)?;
        Ok(Some((name, true)))
    }
}
