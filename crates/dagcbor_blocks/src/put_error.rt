//! Why bytes were not stored as a block.

use ipld_links::Unsound;
use thiserror::Error;

/// Why bytes were not stored as a block under a name.
#[derive(Debug, Drop, Error)]
pub enum PutBlockError {
    /// The bytes are not those of the name, or not a block of its codec, DAG-CBOR or DAG-PB.
    #[error("{0}")]
    Unsound(Unsound),
    #[error("other bytes are held under the name")]
    Collision,
    /// Memory could not be allocated.
    #[error("out of memory")]
    OutOfMemory,
}
