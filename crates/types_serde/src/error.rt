//! Why a value was not written or not read.

use dagcbor_core::{DecodeError, EncodeError, Name};
use std::error::Error as StdError;
use std::fmt;
use std::fmt::{Debug, Display, Formatter};

/// Why a value was not written.
#[derive(Clone, Copy, Debug, Drop, PartialEq, Eq)]
pub enum WriteError {
    /// The allocator refused memory.
    OutOfMemory,
    /// A float was sent.
    Float,
    /// An integer below -2^64, or of 2^64 or more, was sent.
    OutOfRange,
    /// The key of a map is not a text.
    KeyIsNoText,
    /// Two entries of a map have the same key.
    RepeatedKey,
    /// The bytes of a link are not a CID.
    NoCid,
    /// A flattened value is neither a map nor null.
    FlattensNoMap,
    /// The order of the calls does not make a value: an entry without a key, for example.
    Misplaced,
    /// A type refused, with a message of its own.
    Custom(Name),
}

/// Why an event was refused: `WriteError` without a message, so that it stays in a register.
#[derive(Clone, Copy, Drop, PartialEq, Eq)]
pub(crate) enum Refusal {
    OutOfMemory,
    OutOfRange,
    KeyIsNoText,
    RepeatedKey,
    NoCid,
    FlattensNoMap,
    Misplaced,
}

impl Refusal {
    /// Returns the public cause. It builds the result in place, because room for a result that is
    /// passed to a call is cleared first.
    #[inline(always)]
    pub(crate) fn cause(self) -> WriteError {
        match self {
            Refusal::OutOfMemory => WriteError::OutOfMemory,
            Refusal::OutOfRange => WriteError::OutOfRange,
            Refusal::KeyIsNoText => WriteError::KeyIsNoText,
            Refusal::RepeatedKey => WriteError::RepeatedKey,
            Refusal::NoCid => WriteError::NoCid,
            Refusal::FlattensNoMap => WriteError::FlattensNoMap,
            Refusal::Misplaced => WriteError::Misplaced,
        }
    }
}

/// Writes the text of `Debug`.
impl Display for WriteError {
    fn fmt<W: fmt::Write>(&self, f: &mut Formatter<W>) -> fmt::Result {
        Debug::fmt(self, f)
    }
}

impl StdError for WriteError {}

/// Why a type did not accept a block.
#[derive(Clone, Copy, Debug, Drop, PartialEq, Eq)]
pub enum Misfit {
    /// The allocator refused memory.
    OutOfMemory,
    /// The item that begins with this byte is not of the expected kind.
    Mismatch(u8),
    /// A number is outside the range of the expected type.
    OutOfRange,
    /// A float is expected, and the format has none.
    Float,
    /// The field with this name is missing.
    MissingField(Name),
    /// The field with this name comes twice.
    DuplicateField(Name),
    /// No field has this key.
    UnknownField,
    /// No variant has this name.
    UnknownVariant,
    /// A tuple has a different number of items.
    WrongLength,
    /// The type has no such value.
    Invalid,
    /// The type left items unread.
    Unread,
    /// The value is written as other bytes: it does not hold all that the block says.
    Lossy,
    /// A type refused, with a message of its own.
    Custom(Name),
}

/// Writes the text of `Debug`.
impl Display for Misfit {
    fn fmt<W: fmt::Write>(&self, f: &mut Formatter<W>) -> fmt::Result {
        Debug::fmt(self, f)
    }
}

impl StdError for Misfit {}

/// Why a value was not read. `E` is the source's error.
#[derive(Debug, Drop)]
pub enum Error<E> {
    /// No block was read: the bytes are not one, memory ran out, or the source faulted.
    NoBlock(DecodeError<E>),
    /// The type does not accept the block, for this cause. `at` is the offset of the reader in the
    /// block: at the item that the type did not take, or after what it took before it refused.
    Misfit { cause: Misfit, at: usize },
}

/// Writes the text of `Debug`.
impl<E: Debug> Display for Error<E> {
    fn fmt<W: fmt::Write>(&self, f: &mut Formatter<W>) -> fmt::Result {
        Debug::fmt(self, f)
    }
}

impl<E: StdError> StdError for Error<E> {}

/// Why a value was not written to a device. `E` is the device's error.
#[derive(Debug, Drop)]
pub enum DeviceError<E> {
    /// The value was refused, and nothing was written.
    Value(WriteError),
    /// The device refused the bytes, and may hold the first of them.
    Device(EncodeError<E>),
}

/// Writes the text of `Debug`.
impl<E: Debug> Display for DeviceError<E> {
    fn fmt<W: fmt::Write>(&self, f: &mut Formatter<W>) -> fmt::Result {
        Debug::fmt(self, f)
    }
}

impl<E: StdError> StdError for DeviceError<E> {}
