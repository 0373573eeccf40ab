//! Why a commit event is not verified.

use crate::error::UndoError;
use atproto_mst::RepoError;
use files_car::CarError;
use std::convert::Infallible;
use thiserror::Error;

/// Why a commit event is not verified.
#[derive(Debug, Drop, Error)]
pub enum EventError {
    /// Out of memory.
    #[error("out of memory")]
    OutOfMemory,
    /// The event's `tooBig` is set: it does not contain everything.
    #[error("the event does not tell all: tooBig")]
    TooBig,
    /// The event's `rebase` is set: the repository's history was rewritten.
    #[error("the event tells of a rebase")]
    Rebase,
    /// There are more operations than the 200 that an event may have.
    #[error("the event has more than 200 operations")]
    ManyOperations,
    /// The blocks have more than the 2,000,000 bytes that an event may have.
    #[error("the event has more than 2,000,000 bytes of blocks")]
    ManyBytes,
    /// The event's revision does not come after the known one.
    #[error("the revision does not come after the one that is known")]
    NotAfter,
    /// The event's `prevData` differs from the known root.
    #[error("prevData is another root than the one that is known")]
    OtherRoot,
    /// The event has no `prevData`, and no root is known.
    #[error("the event has no prevData, and no root is known")]
    NoRoot,
    /// An operation has a record that its action must not have, or lacks one.
    #[error("an operation lacks a record of its action, or has one more")]
    OtherForm,
    /// The blocks are not a CAR file of version 1.
    #[error("the blocks are no CAR file of version 1: {0}")]
    NoCar(CarError<Infallible>),
    /// The CAR file's first root is not the commit.
    #[error("the first root of the blocks is not the commit")]
    OtherCommit,
    /// The commit is not read.
    #[error("the commit is not read: {0}")]
    NoCommit(RepoError),
    /// The commit's `did` is not the event's `repo`.
    #[error("the commit is of another repository")]
    OtherRepository,
    /// The commit's `rev` is not the event's `rev`.
    #[error("the commit is of another revision")]
    OtherRevision,
    /// The operations cannot be undone, for this reason.
    #[error("the operations are not undone: {0}")]
    NotUndone(UndoError),
    /// Undoing the operations gives another root than the one before.
    #[error("the operations lead from another root")]
    LeadsElsewhere,
}
