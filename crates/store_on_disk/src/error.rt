//! Why a store refused a call.

ghost use Rattle.store_on_disk.specs.Opened.{TellsOfOpening};
ghost use Rattle.store_on_disk.specs.Stored.{TellsOfStore};

use ipld_links::{Unsound, Verdict};
use ipld_tree::Cid;
use sqlite_store::OpenError;
use sqlite_trees::error::StoreError;
use thiserror::Error;

/// Why a store refused a call: out of memory, a failure of the disk, or wrong data.
#[derive(Debug, Drop, Error)]
pub enum StoreRefusal {
    /// The block does not match its CID, or the CID's codec is DAG-CBOR and the block is not valid
    /// DAG-CBOR.
    #[error("{0}")]
    Unsound(Unsound),
    /// The bytes that are stored under this CID do not match it.
    #[error("what is stored under the name has other bytes than it says")]
    Damaged(Cid),
    /// The bytes that are stored under this CID match it, but their links are not known. The
    /// verdict says why: they are not a block of their codec, or links of this codec are not read.
    #[error("the links of a block cannot be read")]
    LinksUnread(Cid, Verdict),
    /// A root has no block: none is stored under it, and its CID does not hold one inline.
    #[error("a root has no block")]
    NoBlock(Cid),
    /// A row already has the greatest number that a row can have.
    #[error("no number is left for a row")]
    NoNumber,
    /// The block is longer than a row can be: about a billion bytes.
    #[error("the block is too long for a row")]
    TooLong,
    /// The index of names has an entry that no store writes. The number is that of the row to which
    /// it points, if it has one.
    #[error("the index of names has a wrong entry")]
    BadEntry(Option<u64>),
    /// The table of roots has a row that no store writes. The number is that of the row, if it has
    /// one.
    #[error("the table of roots has a wrong row")]
    BadRoot(Option<u64>),
    /// The file is not a store: it holds no blocks, or something else.
    #[error("the file is no store of blocks")]
    NotAStore,
    /// The file is of an earlier version, which keeps no roots. Export it, and import the export
    /// into a new file.
    #[error("the file is of an earlier version, which keeps no roots: export it, and import that into a new file")]
    EarlierVersion,
    /// Another process or handle has the file open.
    #[error("another process has the file open")]
    Locked,
    /// The file was not opened: it is not a regular file, it is not writable, or a rollback journal
    /// is in use.
    #[error("the file cannot be opened for reading and writing")]
    CannotOpen,
    /// The disk failed or is full, the file is damaged, or an earlier failure closed the store.
    /// Never out of memory.
    #[error("{0}")]
    Disk(StoreError),
    /// An allocation was refused.
    #[error("out of memory")]
    OutOfMemory,
}

impl StoreRefusal {
    /// Converts an error of the database. Out of memory and a row that is too long have variants of
    /// their own.
    pub(crate) fn of_store(error: StoreError) -> StoreRefusal
        ensures { TellsOfStore error result }
    {
        match error {
            StoreError::OutOfMemory => StoreRefusal::OutOfMemory,
            StoreError::Unstorable => StoreRefusal::TooLong,
            _ => StoreRefusal::Disk(error),
        }
    }

    /// Converts an error of an open. Out of memory has a variant of its own, and a file that is not
    /// a store is `NotAStore`.
    pub(crate) fn of_opening(error: OpenError) -> StoreRefusal
        ensures { TellsOfOpening error result }
    {
        match error {
            OpenError::OutOfMemory => StoreRefusal::OutOfMemory,
            OpenError::Io => StoreRefusal::Disk(StoreError::Io),
            OpenError::Full => StoreRefusal::Disk(StoreError::Full),
            OpenError::Refused => StoreRefusal::NotAStore,
        }
    }
}
