//! Byte strings in derived types.

ghost use Rattle.serde.specs.Event.{Logs, octets};

use serde::{
    Described, Deserialize, DeserializeOwned, Deserializer, Format, Serialize, Serializer,
};
use std::alloc::Global;

/// Bytes that are written as a byte string. A `Vec<u8>` is written as a list of numbers.
#[derive(Debug, Drop, PartialEq, Eq)]
pub struct ByteBuf(pub Vec<u8>);

impl Described for ByteBuf {
    ghost writes = { λ b old new. Logs old new (octets b.0.items) };
}

impl Serialize for ByteBuf {
    fn serialize<S: Serializer>(&self, out: &mut S) -> Result<(), S::Error> {
        out.bytes(self.0.as_slice())
    }
}

impl<'de> Deserialize<'de> for ByteBuf {
    fn deserialize<F: Format>(
        alloc: Global,
        from: &mut Deserializer<'de, '_, F>,
    ) -> Result<ByteBuf, F::Error> {
        Ok(ByteBuf(from.byte_buf(alloc)?))
    }
}

impl DeserializeOwned for ByteBuf {
    fn deserialize_owned<F: Format>(
        alloc: Global,
        from: &mut Deserializer<'_, '_, F>,
    ) -> Result<ByteBuf, F::Error> {
        Ok(ByteBuf(from.byte_buf(alloc)?))
    }
}
