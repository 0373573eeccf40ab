//! Why a CAR file was not read into a store.

ghost use Rattle.std.specs.Prelude.{◌≡◌};
ghost use Rattle.store_on_disk.specs.Cars.{TellsOfFile, TellsOfRun, of_block, of_refusal};
ghost use Rattle.store_on_disk.specs.declared.car_error.ReadCarError.TheVariants.{Header, Section};

use crate::error::StoreRefusal;
use dagcbor_core::EncodeError;
use files_car::{CarError, ReadCarError as RunError};
use ipld_tree::Cid;
use thiserror::Error;

/// Why a CAR file was not read into a store. `E` is the reader's error.
#[derive(Debug, Drop, Error)]
pub enum ReadCarError<E> {
    /// The bytes do not begin a CAR file, or the header was not read. Never out of memory.
    #[error("{0}")]
    Header(CarError<E>),
    /// After this many sections the next is cut short, malformed, or was not read. Never out of
    /// memory.
    #[error("after {0} sections: {1}")]
    Section(u64, CarError<E>),
    /// After this many sections, the block of the next, which has this CID, does not match the CID
    /// or is too long for a row.
    #[error("after {0} sections: {2}")]
    Block(u64, Cid, StoreRefusal),
    /// The store failed, or no number is left for a row; or the file has roots, and the store is of
    /// the earlier version or a root is too long for a row. Never out of memory.
    #[error("{0}")]
    Store(StoreRefusal),
    /// An allocation was refused.
    #[error("out of memory")]
    OutOfMemory,
}

/// Why a store was not written as a CAR file. `E` is the writer's error.
#[derive(Debug, Drop, Error)]
pub enum WriteCarError<E> {
    /// The writer failed, or memory ran out, for the writer or for the header.
    #[error("the file was not written")]
    Write(EncodeError<E>),
    /// A stored block is damaged, or the store failed.
    #[error("{0}")]
    Store(StoreRefusal),
}

/// Why the blocks that links lead to from a root were not written as a CAR file. `E` is the
/// writer's error.
#[derive(Debug, Drop, Error)]
pub enum WriteTreeError<E> {
    /// Nothing is listed under the root, and its CID does not hold a block inline. Nothing was
    /// sent.
    #[error("no block is stored under the root")]
    NotStored,
    /// The file was not written, or only in part.
    #[error("{0}")]
    Unwritten(WriteCarError<E>),
}

impl<E: Drop> ReadCarError<E> {
    /// Converts an error of the header. Out of memory has a variant of its own.
    pub(crate) fn of_header(error: CarError<E>) -> ReadCarError<E>
        ensures { TellsOfFile Header error result }
    {
        match error {
            CarError::OutOfMemory => ReadCarError::OutOfMemory,
            _ => ReadCarError::Header(error),
        }
    }

    /// Converts an error of the section after `count` sections. Out of memory has a variant of its
    /// own.
    fn of_section(count: u64, error: CarError<E>) -> ReadCarError<E>
        ensures { TellsOfFile (Section count) error result }
    {
        match error {
            CarError::OutOfMemory => ReadCarError::OutOfMemory,
            _ => ReadCarError::Section(count, error),
        }
    }

    /// Converts the refusal of the block of the section with this name, after `count` sections.
    fn of_block(count: u64, name: Cid, refusal: StoreRefusal) -> ReadCarError<E>
        ensures { result ≡ of_block count name refusal }
    {
        match refusal {
            StoreRefusal::Unsound(_) | StoreRefusal::TooLong => {
                ReadCarError::Block(count, name, refusal)
            }
            StoreRefusal::OutOfMemory => ReadCarError::OutOfMemory,
            _ => ReadCarError::Store(refusal),
        }
    }

    /// Converts the error that ended the run over the sections.
    pub(crate) fn of_run(error: RunError<E, StoreRefusal>) -> ReadCarError<E>
        ensures { TellsOfRun error result }
    {
        match error {
            RunError::Header(error) => ReadCarError::of_header(error),
            RunError::Section(count, error) => ReadCarError::of_section(count, error),
            RunError::Block(count, name, refusal) => ReadCarError::of_block(count, name, refusal),
        }
    }

    /// Converts the refusal of the roots or of the commit. Out of memory has a variant of its own.
    pub(crate) fn of_refusal(refusal: StoreRefusal) -> ReadCarError<E>
        ensures { result ≡ of_refusal refusal }
    {
        match refusal {
            StoreRefusal::OutOfMemory => ReadCarError::OutOfMemory,
            _ => ReadCarError::Store(refusal),
        }
    }
}
