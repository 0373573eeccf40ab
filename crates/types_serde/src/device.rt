//! Writing whole values to devices.

ghost use Rattle.std.specs.Prelude.{[], Some, IfOk, IfErr};
ghost use Rattle.serde.specs.Event.{Log};
ghost use Rattle.types_serde.specs.Devices.{SendsBlock, IsUnsent, LacksDeviceMemoryIf};
ghost use Rattle.types_serde.specs.Devices.{GrowsByBlock, IsUnsentTo};

use crate::error::DeviceError;
use crate::whole::to_vec;
use dagcbor_heads::{IoRefWriter, Write};
use serde::Serialize;
use std::alloc::Global;
use std::io;

/// Appends the bytes that `to_vec` returns. If the value is refused, it appends nothing.
pub fn push_value<W: Write, T: Serialize>(
    alloc: Global,
    writer: &mut W,
    value: &T,
) -> Result<(), DeviceError<W::Error>>
    ensures value { IfOk result (λ _. (log : Log) × T.writes value.now (Some []) log
        × SendsBlock log (W.written writer.old) (W.written writer.new)) }
    ensures refused { IfErr result (λ e. IsUnsent (λ log. T.writes value.now (Some []) log)
        (W.written writer.old) (W.written writer.new) e) }
    ensures memory { IfErr result (LacksDeviceMemoryIf W.takes_memory) }
{
    let bytes = match to_vec(alloc, value) {
        Ok(bytes) => bytes,
        Err(error) => return Err(DeviceError::Value(error)),
    };
    match writer.push(&bytes) {
        Ok(()) => Ok(()),
        Err(error) => Err(DeviceError::Device(error)),
    }
}

/// Writes the bytes that `to_vec` returns to a device of std. If the value is refused, it writes
/// nothing.
pub fn to_writer<W: io::Write, T: Serialize>(
    alloc: Global,
    writer: &mut W,
    value: &T,
) -> Result<(), DeviceError<io::Error>>
    ensures value { IfOk result (λ _. (log : Log) × T.writes value.now (Some []) log
        × GrowsByBlock log (W.contents writer.old) (W.contents writer.new)) }
    ensures refused { IfErr result (λ e. IsUnsentTo (λ log. T.writes value.now (Some []) log)
        (W.contents writer.old) (W.contents writer.new) e) }
{
    let mut device = IoRefWriter::new(writer);
    let result = push_value(alloc, &mut device, value);
    let lent = device.into_inner();
    // No effect at run time. The proof reads what `writer` holds from this use of `lent`.
    let _ = &*lent;
    result
}
