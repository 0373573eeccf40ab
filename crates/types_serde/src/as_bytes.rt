//! A `Vec<u8>` as a byte string: `#[serde(with = "types_serde::as_bytes")]`.

ghost use Rattle.std.specs.Prelude.{OnOk, IfOk};
ghost use Rattle.serde.specs.Event.{Logs, octets};
ghost use Rattle.serde.specs.Steps.{Gives};

use serde::{Deserializer, Format, Serializer};
use std::alloc::Global;

/// Writes a byte string.
pub fn serialize<S: Serializer>(bytes: &Vec<u8>, out: &mut S) -> Result<(), S::Error>
    ensures { OnOk result (Logs (S.written out.old) (S.written out.new) (octets bytes.now.items)) }
{
    out.bytes(bytes.as_slice())
}

/// Reads a byte string.
pub fn deserialize<F: Format>(
    alloc: Global,
    from: &mut Deserializer<'_, '_, F>,
) -> Result<Vec<u8>, F::Error>
    ensures { IfOk result (λ v. Gives F.gives from.old (octets v.items) from.new) }
{
    from.byte_buf(alloc)
}
