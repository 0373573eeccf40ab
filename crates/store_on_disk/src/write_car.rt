//! Writing the blocks of a store as a CAR file.

ghost use Rattle.std.specs.Prelude.{IfErr, OnOk};
ghost use Rattle.dagcbor_items.specs.Walks.{forms};
ghost use Rattle.store_rows.specs.Ends.{Quiet};
ghost use Rattle.store_on_disk.specs.Walking.{AreBlocks, WritesFile, WriteRefused, BeginsFile};
ghost use Rattle.store_on_disk.specs.Walking.{WritesNext, FileUnsent, FileWantsMemoryOnlyIf};

use crate::car_error::WriteCarError;
use crate::store::BlockStore;
use dagcbor_heads::Write;
use files_car::{push_header, push_section};
use ipld_tree::Cid;
use sqlite_trees::store::Store;
use std::alloc::Global;

/// Appends the header of a CAR file.
pub(crate) fn begin<W: Write>(
    alloc: Global,
    writer: &mut W,
    roots: &[Cid],
) -> Result<(), WriteCarError<W::Error>>
    ensures begins { BeginsFile (forms roots.now) (W.written writer.old) result (W.written writer.new) }
    ensures unsent { FileUnsent W.takes_memory (W.written writer.old) result (W.written writer.new) }
{
    match push_header(alloc, writer, roots) {
        Ok(()) => Ok(()),
        Err(error) => Err(WriteCarError::Write(error)),
    }
}

impl<S: Store> BlockStore<S> {
    /// Appends the CAR file (version 1) of these roots and of all blocks, in the order of their
    /// names, each verified as it is read. No root need be stored. One block is in memory at a
    /// time.
    pub fn write_car<W: Write>(
        &mut self,
        roots: &[Cid],
        writer: &mut W,
    ) -> Result<(), WriteCarError<W::Error>>
        ensures ok { OnOk result (WritesFile S.Store (forms roots.now) AreBlocks self.old
            (W.written writer.old) (W.written writer.new) self.new) }
        ensures refused { IfErr result (λ e. WriteRefused S.Store (forms roots.now) self.old
            (W.written writer.old) e (W.written writer.new) self.new) }
        ensures unsent { FileUnsent W.takes_memory (W.written writer.old) result (W.written writer.new) }
        ensures quiet { Quiet S.Store self.old self.new }
    {
        begin(self.alloc, writer, roots)?;
        let mut last = None;
        for _count in 0..u64::MAX {
            match self.push_next(last, writer)? {
                Some(name) => last = Some(name),
                None => return Ok(()),
            }
        }
        Err(WriteCarError::Store(self.give_up()))
    }

    /// Appends the section of the next block, and returns its name.
    fn push_next<W: Write>(
        &mut self,
        last: Option<Cid>,
        writer: &mut W,
    ) -> Result<Option<Cid>, WriteCarError<W::Error>>
        ensures next { WritesNext S.Store last self.old (W.written writer.old) result
            (W.written writer.new) self.new }
        ensures memory { FileWantsMemoryOnlyIf W.takes_memory result }
        ensures quiet { Quiet S.Store self.old self.new }
    {
        let (name, block) = match self.next_block(last) {
            Ok(Some(next)) => next,
            Ok(None) => return Ok(None),
            Err(refusal) => return Err(WriteCarError::Store(refusal)),
        };
        match push_section(writer, &name, &block) {
            Ok(()) => Ok(Some(name)),
            Err(error) => Err(WriteCarError::Write(error)),
        }
    }
}
