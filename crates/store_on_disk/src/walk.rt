//! A walk over the blocks, in the order of their names.

ghost use Rattle.std.specs.Prelude.{IfOk, IfErr};
ghost use Rattle.sqlite_trees.specs.View.{IsClean};
ghost use Rattle.store_rows.specs.Ends.{Quiet};
ghost use Rattle.store_on_disk.specs.Stored.{JustReads, FailsByStore};
ghost use Rattle.store_on_disk.specs.Walking.{NextBlock, IsNamedNext, WalkRefused, IsOfNext};

use crate::error::StoreRefusal;
use crate::store::BlockStore;
use ipld_tree::Cid;
use sqlite_trees::store::Store;

impl<S: Store> BlockStore<S> {
    /// Returns the first block whose name comes after `last`, or the first of all if that is
    /// `None`; `None` if no more follow. One block is in memory at a time.
    pub fn next_block(&mut self, last: Option<Cid>) -> Result<Option<(Cid, Vec<u8>)>, StoreRefusal>
        ensures verified { IfOk result IsNamedNext }
        ensures next { IfOk result (λ next. IsClean (S.Store.view self.new)
            → NextBlock (S.Store.view self.old) last next) }
        ensures refused { IfErr result (WalkRefused S.Store self.old self.new) }
        ensures of_next { IfErr result (IsOfNext S.Store last self.old self.new) }
        ensures reads { JustReads S.Store result self.old self.new }
    {
        let Some(name) = self.next_name(last)? else {
            return Ok(None);
        };
        match self.get_block(&name)? {
            Some(block) => Ok(Some((name, block))),
            None => Err(StoreRefusal::Damaged(name)),
        }
    }

    /// Undoes what is not committed, because memory ran out.
    pub(crate) fn give_up(&mut self) -> StoreRefusal
        ensures refused { FailsByStore S.Store ⊥ self.old self.new result }
        ensures walk { WalkRefused S.Store self.old self.new result }
        ensures quiet { Quiet S.Store self.old self.new }
    {
        self.rollback();
        StoreRefusal::OutOfMemory
    }
}
