//! Writes one value.

ghost use Rattle.std.specs.Prelude.{◌≡◌, ◌⊎◌, IfOk, IfErr, false, ◌||◌};
ghost use Rattle.dagcbor_heads.specs.Written.{WantsMemoryOnlyIf};
ghost use Rattle.dagcbor_core.specs.declared.error.EncodeError.TheVariants.{OutOfMemory};
ghost use Rattle.dagcbor_write.specs.Answers.{HasNoSpelling, AreSpellingOf, GrewBySpelling};
ghost use Rattle.dagcbor_write.specs.Answers.{GrewByFront, IsWriteExcuse, OnMessage};

use crate::collect::buffer::FIRST_ROOM;
use crate::serialize::Serialize;
use crate::serializer::Serializer;
use dagcbor_core::EncodeError;
use dagcbor_heads::{BufWriter, IoRefWriter};
use std::alloc::Global;
use std::convert::Infallible;
use std::io;

/// Returns the one spelling of the value's tree. Refused with `Msg` only if there is no spelling,
/// such as of an integer outside -2^64 to 2^64 - 1.
///
/// ```rust
/// let block = to_vec(alloc, &(-300i16, "a"))?;
/// agree(block.as_slice(), b"\x82\x39\x01\x2b\x61a".as_slice())?;
/// ```
pub fn to_vec<T: Serialize>(alloc: Global, value: &T) -> Result<Vec<u8>, EncodeError<Infallible>>
    ensures value { IfOk result (λ v. AreSpellingOf (T.tree value.now) v.items) }
    ensures refused { IfErr result (λ e. (e ≡ OutOfMemory) ⊎ HasNoSpelling (T.tree value.now)) }
    ensures told { IfErr result (OnMessage (T.message value.now)) }
{
    let Ok(bytes) = Vec::with_capacity(alloc, FIRST_ROOM) else {
        return Err(EncodeError::OutOfMemory);
    };
    let mut ser = Serializer::new(BufWriter::new(bytes));
    value.serialize(alloc, &mut ser)?;
    Ok(ser.into_inner().into_inner())
}

/// Writes the one spelling of the value's tree to the device. Refused with `Msg` as `to_vec`. After
/// a refusal the device holds what it held before, followed by some bytes: a beginning of the
/// spelling, if the value has one.
///
/// ```rust
/// let mut device = Vec::new(alloc);
/// to_writer(alloc, &mut device, &(1u8, "a"))?;
/// to_writer(alloc, &mut device, &2u8)?;
/// agree(device.as_slice(), b"\x82\x01\x61a\x02".as_slice())?;
/// ```
#[tactic(auto, using(crate::proofs::Spelling::device_refused))]
pub fn to_writer<W: io::Write, T: Serialize>(
    alloc: Global,
    writer: &mut W,
    value: &T,
) -> Result<(), EncodeError<io::Error>>
    ensures value { IfOk result
        (λ _. GrewBySpelling (T.tree value.now) (W.contents writer.old) (W.contents writer.new)) }
    ensures refused { IfErr result (λ e. IsWriteExcuse e ⊎ HasNoSpelling (T.tree value.now)) }
    ensures sent { IfErr result
        (λ _. GrewByFront (T.tree value.now) (W.contents writer.old) (W.contents writer.new)) }
    ensures memory { WantsMemoryOnlyIf (T.takes_memory || false) result }
    ensures told { IfErr result (OnMessage (T.message value.now)) }
{
    let mut ser = Serializer::new(IoRefWriter::new(writer));
    let result = value.serialize(alloc, &mut ser);
    let device = ser.into_inner().into_inner();
    // No effect at run time. From this use of `device` the proof knows what `writer` holds.
    let _ = &*device;
    result
}
