//! Why a CAR file of the blocks that links lead to was not written.

use thiserror::Error;

/// Why a CAR file of the blocks that links lead to was not written. `E` is the writer's error.
#[derive(Debug, Drop, Error)]
pub enum WriteTreeError<E> {
    /// No block is stored under the root, and the root is not by the identity. Nothing was sent.
    #[error("no block is held under the root")]
    NotHeld,
    /// The writer returned this error.
    #[error("the output failed")]
    Write(E),
    /// Memory could not be allocated.
    #[error("out of memory")]
    OutOfMemory,
}
