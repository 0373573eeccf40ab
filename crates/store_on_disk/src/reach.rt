//! A walk along links within a store.

ghost use Rattle.std.specs.Prelude.{IfOk, IfErr};
ghost use Rattle.sqlite_trees.specs.View.{IsClean};
ghost use Rattle.store_on_disk.specs.Stored.{JustReads};
ghost use Rattle.store_on_disk.specs.Trees.{Reaches, ReachRefused};

use crate::error::StoreRefusal;
use crate::store::BlockStore;
use ipld_links::Reached;
use ipld_tree::Cid;
use sqlite_trees::store::Store;
use std::collections::BTreeSet;

impl<S: Store> BlockStore<S> {
    /// Returns the names of the blocks that links lead to from the root, each once, depth first,
    /// and the names under which nothing is listed. It refuses with `LinksUnread` if it comes to a
    /// block whose links are not known. One block is in memory at a time, with all the names.
    pub fn reach(&mut self, root: &Cid) -> Result<Reached, StoreRefusal>
        ensures reached { IfOk result (λ r. IsClean (S.Store.view self.new)
            → Reaches (S.Store.view self.old) root.now r) }
        ensures refused { IfErr result (ReachRefused S.Store root.now self.old self.new) }
        ensures reads { JustReads S.Store result self.old self.new }
    {
        let none = BTreeSet::new(self.alloc);
        self.reach_beside(root, &none)
    }
}
