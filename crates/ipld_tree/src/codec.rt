//! Codecs: how values of a type are written as bytes and read back.

ghost use Rattle.std.specs.Prelude.{ℕ, List, Option, Some};
ghost use Rattle.ipld_tree.specs.Codecs.{Decodes, Encodes, EncodesAsVec, EncodingsAreUnique};
ghost use Rattle.ipld_tree.specs.Codecs.{DataHasOneEncoding};

use std::alloc::Global;
use std::io::{BufRead, Write};

/// A format in which values of type `T` are written and read. A value that is read borrows nothing:
/// it does not see the input of lifetime `'de`.
pub trait Codec<'de, T> {
    /// The code of the format (the multicodec table).
    const CODE: u64;

    type Error;

    ghost CODE: { ℕ };

    /// The data that bytes of the format encode.
    ghost Data: { Type 0 };

    /// What a value holds, wherever it is in memory.
    ghost View: { Type 0 };

    /// All of these bytes are an encoding of the data, for writing and for reading.
    ghost is_encoding: { List ℕ → Data → Type 0 };

    /// The data of a value, or `None` if it has no data.
    ghost data_of: { T → Option Data };

    ghost meaning: { T → View };

    /// The data is read as a value that holds this.
    ghost is_read: { Data → View → Type 0 };

    /// The error says nothing about the value or the bytes: out of memory, or a device error.
    ghost is_excuse: { Self.Error → Type 0 };

    /// Reads the value whose encoding is all of the source's bytes.
    fn decode<R: BufRead + Drop>(alloc: Global, reader: R) -> Result<T, Self::Error>
        ensures answers { Decodes is_encoding is_read meaning is_excuse
            (R.remaining reader) result };

    /// Reads the value whose encoding is all of the bytes.
    fn decode_from_slice(alloc: Global, bytes: &[u8]) -> Result<T, Self::Error>
        ensures answers { Decodes is_encoding is_read meaning is_excuse (Some bytes.now) result };

    /// Appends the value's encoding, or a beginning of it, to what the device holds.
    fn encode<W: Write>(alloc: Global, writer: &mut W, value: &T) -> Result<(), Self::Error>
        ensures answers { Encodes is_encoding is_excuse (data_of value.now)
            (W.contents writer.old) result (W.contents writer.new) };

    /// Returns the value's encoding.
    fn encode_to_vec(alloc: Global, value: &T) -> Result<Vec<u8>, Self::Error>
        ensures answers { EncodesAsVec is_encoding is_excuse (data_of value.now) result };

    /// Bytes are an encoding of at most one datum.
    ghost unique: { EncodingsAreUnique is_encoding };

    /// A datum has at most one encoding.
    ghost canonical: { DataHasOneEncoding is_encoding };
}
