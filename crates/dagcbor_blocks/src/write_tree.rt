//! Writes the blocks that links lead to as a CAR file.

ghost use Rattle.dagcbor_blocks.specs.Blocks.{held_blocks};
ghost use Rattle.dagcbor_blocks.specs.Reaching.{WritesHeldTree};

use crate::store::Blocks;
use crate::tree_error::WriteTreeError;
use files_car::push_tree;
use serde_ipld_dagcbor::{Cid, EncodeError, Write};

impl Blocks {
    /// Appends a CAR file of version 1 with this one root. Its sections are the stored blocks that
    /// links lead to from there, each once, in the order of `reachable`. A link to a block that is
    /// not stored is skipped, as there; `missing` lists such links.
    pub fn write_tree<W: Write>(
        &self,
        root: &Cid,
        writer: &mut W,
    ) -> Result<(), WriteTreeError<W::Error>>
        ensures { WritesHeldTree (held_blocks self.now) root.now W.takes_memory
            (W.written writer.old) result (W.written writer.new) }
    {
        if !self.may_lead(root) {
            return Err(WriteTreeError::NotHeld);
        }
        let Ok(names) = self.reach(root) else {
            return Err(WriteTreeError::OutOfMemory);
        };
        match push_tree(self.alloc, writer, root, &self.blocks, &names) {
            Ok(()) => Ok(()),
            Err(error) => match error {
                EncodeError::Write(fault) => Err(WriteTreeError::Write(fault)),
                // The error is never `Msg`, because sections can always be encoded.
                _ => Err(WriteTreeError::OutOfMemory),
            },
        }
    }
}
