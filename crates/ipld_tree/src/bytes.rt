//! Byte strings in typed data, where a `Vec<u8>` is a list of numbers.

/// A byte string.
#[derive(Debug, Drop, PartialEq, Eq, PartialOrd, Ord, Hash)]
pub struct Bytes(pub Vec<u8>);

/// A borrowed byte string.
#[derive(Copy, Clone, Debug, PartialEq, Eq, PartialOrd, Ord, Hash)]
pub struct ByteSlice<'a>(pub &'a [u8]);
