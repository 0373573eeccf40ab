//! Stores blocks, reads them, and finds links that lead to no stored block.

ghost use Rattle.std.specs.Prelude.{◌≡◌, ◌≢◌, [], true, IfOk, IfSome, OnErr};
ghost use Rattle.dagcbor_blocks.specs.Blocks.{held_blocks, Puts, Gets, ListsUnheld};
ghost use Rattle.ipld_links.specs.Sound.{IsSound};
ghost use Rattle.dagcbor_blocks.specs.Steps.{HasTree, ChecksDepth, StoresBlock};
ghost use Rattle.dagcbor_blocks.specs.Steps.{AddsOne, AddsMissing};

use crate::error::BlockError;
use crate::store::Blocks;
use ipld_links::{CidSet, is_block_of, is_dag_cbor, links_of_block, name_of_block};
use serde_ipld_dagcbor::{Cid, Deserialize, Serialize, from_slice, laws, links_from_slice, to_vec};
use std::alloc::{AllocError, Global};
use std::collections::BTreeMap;

/// Validates that the links of a spelling are read within 256 steps.
fn check_depth(alloc: Global, bytes: &[u8]) -> Result<(), BlockError>
    requires { HasTree bytes.now }
    ensures { ChecksDepth bytes.now result }
{
    laws::spelling_unique();
    match links_from_slice(alloc, bytes) {
        Ok(_links) => Ok(()),
        Err(error) => Err(BlockError::of_decoding(error)),
    }
}

impl Blocks {
    /// Returns an empty store.
    pub fn new(alloc: Global) -> Blocks
        ensures { held_blocks result ≡ [] }
    {
        let blocks = BTreeMap::new(alloc);
        Blocks { alloc, blocks }
    }

    /// Stores the value's spelling under its name. A refusal changes nothing.
    pub fn put<T: Serialize>(&mut self, value: &T) -> Result<Cid, BlockError>
        ensures { Puts (T.tree value.now) (held_blocks self.old) result (held_blocks self.new) }
    {
        laws::spelling_unique();
        let bytes = match to_vec(self.alloc, value) {
            Ok(bytes) => bytes,
            Err(error) => return Err(BlockError::of_encoding(error)),
        };
        check_depth(self.alloc, &bytes)?;
        let name = name_of_block(&bytes);
        self.store(name, bytes)
    }

    /// Stores a sound block under its name.
    pub(crate) fn store(&mut self, name: Cid, bytes: Vec<u8>) -> Result<Cid, BlockError>
        requires { IsSound (name, bytes.items) }
        ensures { StoresBlock name bytes.items (held_blocks self.old) result (held_blocks self.new) }
    {
        // The contract of `version` tells the proof what holds of a CID.
        let _version = name.version();
        match self.blocks.get(&name) {
            Some(other) => {
                if other.as_slice() == bytes.as_slice() {
                    Ok(name)
                } else {
                    Err(BlockError::Collision)
                }
            }
            None => match self.blocks.insert(name, bytes) {
                Ok(_none) => Ok(name),
                Err(_) => Err(BlockError::OutOfMemory),
            },
        }
    }

    /// Reads the block under the name as a value. `None` if no block is stored under it. The block
    /// must be DAG-CBOR.
    pub fn get<'a, T: Deserialize<'a>>(&'a self, name: &Cid) -> Result<Option<T>, BlockError>
        ensures gets { Gets T.meaning T.shape name.now (held_blocks self.now) result }
        ensures lies { IfOk result (λ found. IfSome found (T.lies true)) }
    {
        let Some(block) = self.blocks.get(name) else {
            return Ok(None);
        };
        if !is_dag_cbor(name) {
            return Err(BlockError::OtherCodec);
        }
        match from_slice::<T>(self.alloc, block) {
            Ok(value) => Ok(Some(value)),
            Err(error) => Err(BlockError::of_decoding(error)),
        }
    }

    /// Returns the links in stored blocks of DAG-CBOR and DAG-PB that name no stored block, each
    /// once, in the order of CIDs. Links in blocks of other codecs are not read. A link by the
    /// identity is listed like any other. The block in its digest is not stored, so it is not read.
    pub fn missing(&self) -> Result<Vec<Cid>, BlockError>
        ensures lists { ListsUnheld (held_blocks self.now) result }
        ensures memory { OnErr result (held_blocks self.now ≢ []) }
    {
        if self.blocks.is_empty() {
            return Ok(Vec::new(self.alloc));
        }
        self.missing_of_some()
    }

    /// Does what `missing` does, of an empty store too.
    fn missing_of_some(&self) -> Result<Vec<Cid>, BlockError>
        ensures { ListsUnheld (held_blocks self.now) result }
    {
        laws::cid_equality();
        let mut missing = CidSet::new(self.alloc);
        for (name, block) in self.blocks.iter() {
            if !is_block_of(name.codec(), block) {
                continue;
            }
            let Ok(links) = links_of_block(self.alloc, name.codec(), block) else {
                return Err(BlockError::OutOfMemory);
            };
            if self.add_missing(&links, &mut missing).is_err() {
                return Err(BlockError::OutOfMemory);
            }
        }
        match missing.into_vec(self.alloc) {
            Ok(links) => Ok(links),
            Err(_) => Err(BlockError::OutOfMemory),
        }
    }

    /// Adds those of the links that name no stored block.
    fn add_missing(&self, links: &[Cid], missing: &mut CidSet) -> Result<(), AllocError>
        ensures { AddsMissing self.now.blocks links.now missing.old result missing.new }
    {
        for link in links {
            self.add_if_missing(link, missing)?;
        }
        Ok(())
    }

    fn add_if_missing(&self, link: &Cid, missing: &mut CidSet) -> Result<(), AllocError>
        ensures { AddsOne self.now.blocks link.now missing.old result missing.new }
    {
        // The contract of `version` tells the proof what holds of a CID.
        let _version = link.version();
        let is_held = self.blocks.contains_key(link);
        if is_held {
            return Ok(());
        }
        missing.add(*link)
    }
}
