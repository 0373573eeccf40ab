//! Names of blocks.

ghost use Rattle.dagcbor_blocks.specs.Names.{IsNameOf};

use ipld_links::name_of_block;
use serde_ipld_dagcbor::{Cid, EncodeError, Serialize, to_vec};
use std::alloc::Global;
use std::convert::Infallible;

/// Returns the name of the value's spelling: a CID of version 1, of DAG-CBOR, by its SHA-256.
pub fn name_of<T: Serialize>(alloc: Global, value: &T) -> Result<Cid, EncodeError<Infallible>>
    ensures { IsNameOf (T.tree value.now) result }
{
    let bytes = to_vec(alloc, value)?;
    Ok(name_of_block(&bytes))
}
