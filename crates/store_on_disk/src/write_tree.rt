//! Writing the blocks that links lead to as a CAR file.

ghost use Rattle.std.specs.Prelude.{IfOk, IfErr, OnOk};
ghost use Rattle.store_rows.specs.Ends.{Quiet};
ghost use Rattle.store_on_disk.specs.Trees.{WritesTree, TreeRefused, TreeUnsent, WritesNames};
ghost use Rattle.store_on_disk.specs.Trees.{NamesUnwritten, WritesNamed};
ghost use Rattle.store_on_disk.specs.Walking.{FileUnsent, FileWantsMemoryOnlyIf};

use crate::car_error::{WriteCarError, WriteTreeError};
use crate::error::StoreRefusal;
use crate::store::BlockStore;
use crate::write_car::begin;
use dagcbor_heads::Write;
use files_car::push_section;
use ipld_links::{IDENTITY, Reached};
use ipld_tree::Cid;
use sqlite_trees::store::Store;

impl<S: Store> BlockStore<S> {
    /// Appends the CAR file (version 1) with this one root, and with the blocks that `reach` finds,
    /// in its order, each verified as it is read. Returns the names that links lead to and under
    /// which nothing is listed. One block is in memory at a time, with all the names.
    pub fn write_tree<W: Write>(
        &mut self,
        root: &Cid,
        writer: &mut W,
    ) -> Result<Vec<Cid>, WriteTreeError<W::Error>>
        ensures ok { IfOk result (λ lost. WritesTree S.Store root.now self.old
            (W.written writer.old) lost.items (W.written writer.new) self.new) }
        ensures refused { IfErr result (λ e. TreeRefused S.Store root.now self.old
            (W.written writer.old) e (W.written writer.new) self.new) }
        ensures unsent { TreeUnsent W.takes_memory (W.written writer.old) result (W.written writer.new) }
        ensures quiet { Quiet S.Store self.old self.new }
    {
        let reached = match self.reach(root) {
            Ok(reached) => reached,
            Err(refusal) => return Err(WriteTreeError::Unwritten(WriteCarError::Store(refusal))),
        };
        let Reached { found, lost } = reached;
        if found.is_empty() && root.hash_code() != IDENTITY {
            return Err(WriteTreeError::NotStored);
        }
        match self.push_tree(root, &found, writer) {
            Ok(()) => Ok(lost),
            Err(error) => Err(WriteTreeError::Unwritten(error)),
        }
    }

    /// Appends the CAR file of the root and of the blocks under the names, in their order.
    fn push_tree<W: Write>(
        &mut self,
        root: &Cid,
        names: &[Cid],
        writer: &mut W,
    ) -> Result<(), WriteCarError<W::Error>>
        ensures ok { OnOk result (WritesNames S.Store root.now names.now self.old
            (W.written writer.old) (W.written writer.new) self.new) }
        ensures refused { IfErr result (λ e. NamesUnwritten S.Store root.now names.now self.old
            (W.written writer.old) e (W.written writer.new) self.new) }
        ensures unsent { FileUnsent W.takes_memory (W.written writer.old) result (W.written writer.new) }
        ensures quiet { Quiet S.Store self.old self.new }
    {
        begin(self.alloc, writer, &[*root])?;
        for name in names {
            self.push_named(name, writer)?;
        }
        Ok(())
    }

    /// Appends the section of the block under the name.
    fn push_named<W: Write>(
        &mut self,
        name: &Cid,
        writer: &mut W,
    ) -> Result<(), WriteCarError<W::Error>>
        ensures named { WritesNamed S.Store name.now self.old (W.written writer.old) result
            (W.written writer.new) self.new }
        ensures memory { FileWantsMemoryOnlyIf W.takes_memory result }
        ensures quiet { Quiet S.Store self.old self.new }
    {
        let block = match self.get_block(name) {
            Ok(Some(block)) => block,
            Ok(None) => return Err(WriteCarError::Store(StoreRefusal::Damaged(*name))),
            Err(refusal) => return Err(WriteCarError::Store(refusal)),
        };
        match push_section(writer, name, &block) {
            Ok(()) => Ok(()),
            Err(error) => Err(WriteCarError::Write(error)),
        }
    }
}
