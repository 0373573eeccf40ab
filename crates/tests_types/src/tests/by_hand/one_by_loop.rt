//! A struct of one field, read by a loop over the keys of its map.

ghost use Rattle.dagcbor_read.specs.Deserializers.{Over};
ghost use Rattle.dagcbor_read.specs.Values.{ReadsValue};
ghost use Rattle.tests_types.specs.One.{one_shape};

use crate::tests::by_hand::one::One;
use serde_ipld_dagcbor::{DecodeError, Deserializer, IgnoredAny, Read, ReadResult};
use std::alloc::Global;

/// Reads what `One::deserialize` reads.
pub(crate) fn read_one_by_loop<'de, R: Read>(
    alloc: Global,
    de: &mut Deserializer<'de, R>,
) -> ReadResult<One, R>
    ensures { Over R.reading (ReadsValue (λ o. (o.a, tt)) one_shape) de.old result de.new }
{
    let mut entries = de.deserialize_map()?;
    let mut a: Option<u8> = None;
    while let Some(key) = entries.next_key(alloc, de)? {
        match key.as_str() {
            "a" => a = Some(entries.next_value(alloc, de)?),
            _ => {
                let IgnoredAny = entries.next_value(alloc, de)?;
            }
        }
    }
    entries.end(de)?;
    match a {
        Some(a) => Ok(One { a }),
        None => Err(DecodeError::custom("missing field")),
    }
}
