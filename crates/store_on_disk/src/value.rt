//! Storing values, and reading them.

ghost use Rattle.std.specs.Prelude.{◌⊎◌, IsSomeAnd, IfOk, IfErr};
ghost use Rattle.ipld_tree.specs.Spelling.{spelling};
ghost use Rattle.ipld_links.specs.Names.{block_name};
ghost use Rattle.sqlite_trees.specs.View.{IsClean};
ghost use Rattle.store_on_disk.specs.Stored.{JustReads, IsAddedTo, IsKeptBy};
ghost use Rattle.store_on_disk.specs.Leaving.{StillLeavesStore};
ghost use Rattle.store_on_disk.specs.Values.{PutsValue, PutValueRefused, ShowsNamed, GetsValue};
ghost use Rattle.store_on_disk.specs.Values.{GetValueRefused};

use crate::error::StoreRefusal;
use crate::store::BlockStore;
use dagcbor_core::{DecodeError, EncodeError};
use dagcbor_read::{DeserializeOwned, from_slice_owned};
use dagcbor_write::{Serialize, to_vec};
use ipld_links::{is_dag_cbor, name_of_block};
use ipld_tree::Cid;
use sqlite_trees::store::Store;
use std::convert::Infallible;
use thiserror::Error;

/// Why a value was not stored.
#[derive(Debug, Drop, Error)]
pub enum PutError {
    /// The value cannot be encoded, or memory ran out.
    #[error("encode error: {0}")]
    Encode(EncodeError<Infallible>),
    /// The encoded block was not stored. `Unsound`: it cannot be read within 256 steps.
    #[error("{0}")]
    Store(StoreRefusal),
}

/// Why a value was not read.
#[derive(Debug, Drop, Error)]
pub enum GetError {
    /// The block does not decode as the type within 256 steps, or memory ran out.
    #[error("decode error: {0}")]
    Decode(DecodeError<Infallible>),
    /// The block has a codec other than DAG-CBOR.
    #[error("the block is of another codec than DAG-CBOR")]
    OtherCodec,
    /// The block was not read from the store.
    #[error("{0}")]
    Store(StoreRefusal),
}

impl<S: Store> BlockStore<S> {
    /// Encodes the value, stores the block under its CID, and commits it, as `put_block` does.
    pub fn put<T: Serialize>(&mut self, value: &T) -> Result<Cid, PutError>
        ensures ok { IfOk result (λ name. PutsValue S.Store (T.tree value.now) self.old name self.new) }
        ensures refused { IfErr result (λ e. PutValueRefused S.Store (T.tree value.now) self.old e self.new) }
        ensures crash { (db : _) → S.Store.recovers self.new db → S.Store.recovers self.old db
            ⊎ IsSomeAnd (T.tree value.now) (λ t. IsClean (S.Store.view self.new)
            → IsAddedTo (S.Store.view self.old).trees db (block_name (spelling t)) (spelling t)) }
        ensures leaves { StillLeavesStore S.Store self.old self.new }
        ensures kept { IsKeptBy S.Store self.old self.new }
    {
        let block = match to_vec(self.alloc, value) {
            Ok(block) => block,
            Err(error) => return Err(PutError::Encode(error)),
        };
        let name = name_of_block(&block);
        match self.put_block(&name, &block) {
            Ok(()) => Ok(name),
            Err(refusal) => Err(PutError::Store(refusal)),
        }
    }

    /// Returns the value that the block under the name decodes to, or `None` if nothing is listed
    /// under it. The block must be DAG-CBOR.
    pub fn get<'de, T: DeserializeOwned<'de>>(&mut self, name: &Cid) -> Result<Option<T>, GetError>
        ensures named { IfOk result (ShowsNamed T.meaning T.shape name.now) }
        ensures gets { IfOk result (λ found. IsClean (S.Store.view self.new)
            → GetsValue T.meaning T.shape (S.Store.view self.old) name.now found) }
        ensures refused { IfErr result (λ e. GetValueRefused S.Store T.shape name.now self.old e self.new) }
        ensures reads { JustReads S.Store result self.old self.new }
    {
        let block = match self.get_block(name) {
            Ok(None) => return Ok(None),
            Ok(Some(block)) => block,
            Err(refusal) => return Err(GetError::Store(refusal)),
        };
        if !is_dag_cbor(name) {
            return Err(GetError::OtherCodec);
        }
        match from_slice_owned(self.alloc, &block) {
            Ok(value) => Ok(Some(value)),
            Err(error) => Err(GetError::Decode(error)),
        }
    }
}
