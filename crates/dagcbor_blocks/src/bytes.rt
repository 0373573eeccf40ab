//! Stores blocks as bytes, and returns them.

ghost use Rattle.std.specs.Prelude.{◌≡◌, ◌≢◌, [], length, IfOk, OnErr, MatchOption, None};
ghost use Rattle.dagcbor_blocks.specs.Blocks.{held_blocks, block_at, HoldsBytes};
ghost use Rattle.dagcbor_blocks.specs.Bytes.{PutsBytes, is_held, HoldsOthers, AreHeldNames};

use crate::error::BlockError;
use crate::put_error::PutBlockError;
use crate::store::Blocks;
use ipld_links::check_block;
use serde_ipld_dagcbor::Cid;
use std::alloc::AllocError;

impl Blocks {
    /// Stores a copy of the block under the name, whatever its codec. The digest in the name must
    /// be the SHA-256 of the block, of 32 bytes. If its codec is DAG-CBOR, the block must be read
    /// within 256 steps. If its codec is DAG-PB, the block must be a node. A refusal changes
    /// nothing.
    pub fn put_block(&mut self, name: &Cid, bytes: &[u8]) -> Result<(), PutBlockError>
        ensures { PutsBytes (name.now, bytes.now) (held_blocks self.old) result
            (held_blocks self.new) }
    {
        if let Err(cause) = check_block(name, bytes) {
            return Err(PutBlockError::Unsound(cause));
        }
        let Ok(block) = bytes.to_vec(self.alloc) else {
            return Err(PutBlockError::OutOfMemory);
        };
        match self.store(*name, block) {
            Ok(_name) => Ok(()),
            Err(BlockError::Collision) => Err(PutBlockError::Collision),
            Err(_) => Err(PutBlockError::OutOfMemory),
        }
    }

    /// Returns the block under the name, as it was stored.
    pub fn get_block(&self, name: &Cid) -> Option<&[u8]>
        ensures { MatchOption result
            (block_at name.now (held_blocks self.now) ≡ None)
            (λ b. HoldsBytes name.now b.now (held_blocks self.now)) }
    {
        match self.blocks.get(name) {
            Some(block) => Some(block.as_slice()),
            None => None,
        }
    }

    /// Returns whether a block is stored under the name.
    pub fn contains(&self, name: &Cid) -> bool
        ensures { result ≡ is_held name.now (held_blocks self.now) }
    {
        self.get_block(name).is_some()
    }

    /// Returns how many blocks are stored.
    pub fn len(&self) -> usize
        ensures { result ≡ length (held_blocks self.now) }
    {
        self.blocks.len()
    }

    /// Returns the names of the stored blocks, in the order of CIDs.
    pub fn names(&self) -> Result<Vec<Cid>, AllocError>
        ensures names { IfOk result (AreHeldNames (held_blocks self.now)) }
        ensures memory { OnErr result (held_blocks self.now ≢ []) }
    {
        let mut names = Vec::new(self.alloc);
        for (name, _block) in self.blocks.iter() {
            names.push(*name)?;
        }
        Ok(names)
    }

    /// Removes the block under the name, and returns whether there was one.
    pub fn remove(&mut self, name: &Cid) -> bool
        ensures answer { result ≡ is_held name.now (held_blocks self.old) }
        ensures others { HoldsOthers name.now (held_blocks self.old) (held_blocks self.new) }
    {
        self.blocks.remove(name).is_some()
    }
}
