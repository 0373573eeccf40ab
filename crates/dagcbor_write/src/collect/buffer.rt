//! Values that are spelled in memory before they are written.

ghost use Rattle.std.specs.Prelude.{◌≡◌, ◌+◌, ◌≤◌, [], length, OnErr};
ghost use Rattle.dagcbor_write.specs.Gathering.{Waiting, Grows, RefusedFor, Collects};

use crate::serialize::Serialize;
use crate::serializer::Serializer;
use dagcbor_core::EncodeError;
use dagcbor_heads::BufWriter;
use std::alloc::Global;
use std::marker::Model;
use std::mem;

/// The first capacity in bytes, so that the memory does not grow step by step for a short value.
pub(crate) const FIRST_ROOM: usize = 128;

/// Appends the value's spelling to the bytes. A value without a spelling is refused with `refusal`.
/// After a refusal the bytes are as before.
pub(crate) fn append<T: Serialize, E>(
    alloc: Global,
    bytes: &mut Vec<u8>,
    value: &T,
    refusal: &str,
) -> Result<(), EncodeError<E>>
    requires { length refusal.now ≤ 63 }
    ensures taken { Collects (λ u. Grows (T.tree value.now) bytes.old.items bytes.new.items)
        (RefusedFor refusal.now (T.tree value.now)) result }
    ensures kept { OnErr result (bytes.new.items ≡ bytes.old.items) }
{
    if bytes.capacity() == 0 && bytes.reserve(FIRST_ROOM).is_err() {
        return Err(EncodeError::OutOfMemory);
    }
    let before = bytes.len();
    let mut ser = Serializer::new(BufWriter::new(mem::replace(bytes, Vec::new(alloc))));
    let result = value.serialize(alloc, &mut ser);
    *bytes = ser.into_inner().into_inner();
    let Err(error) = result else {
        return Ok(());
    };
    bytes.truncate(before);
    match error {
        EncodeError::Msg(_) => Err(EncodeError::custom(refusal)),
        EncodeError::OutOfMemory => Err(EncodeError::OutOfMemory),
        EncodeError::Write(never) => match never {},
    }
}

/// The spellings of values that wait until their number is known, and that number.
#[derive(Drop)]
pub struct Buffer {
    bytes: Vec<u8>,
    count: usize,
}

impl Model for Buffer {
    ghost Value = { Waiting };

    ghost view = { λ b. record { bytes = b.bytes.items; count = b.count } };

    ghost invariant = { λ b. b.count ≤ length b.bytes.items };
}

impl Buffer {
    pub(crate) fn new(alloc: Global) -> Buffer
        ensures { result ≡ record { bytes = []; count = 0 } }
    {
        Buffer {
            bytes: Vec::new(alloc),
            count: 0,
        }
    }

    pub(crate) fn bytes(&self) -> &[u8]
        ensures { result.now ≡ self.now.bytes }
    {
        self.bytes.as_slice()
    }

    pub(crate) fn count(&self) -> usize
        ensures { result ≡ self.now.count }
    {
        self.count
    }

    /// Appends a value's spelling to the others. After a refusal the others are as before.
    pub(crate) fn gather<T: Serialize, E>(
        &mut self,
        alloc: Global,
        value: &T,
        refusal: &str,
    ) -> Result<(), EncodeError<E>>
        requires { length refusal.now ≤ 63 }
        ensures taken { Collects
            (λ u. Grows (T.tree value.now) self.old.bytes self.new.bytes
            × (self.new.count ≡ self.old.count + 1))
            (RefusedFor refusal.now (T.tree value.now)) result }
        ensures kept { OnErr result (self.new ≡ self.old) }
    {
        append(alloc, &mut self.bytes, value, refusal)?;
        self.count += 1;
        Ok(())
    }
}
