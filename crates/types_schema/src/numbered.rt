//! An enum whose variants are identified by numbers.

ghost use Rattle.std.specs.Prelude.{◌≡◌, ◌^◌, ℕ, Option, option_map, codes};
ghost use Rattle.dagcbor_heads.specs.Looking.{Looks};
ghost use Rattle.dagcbor_items.specs.AnsweredVariants.{OfNumber};
ghost use Rattle.dagcbor_items.specs.LeafReads.{ReadsUnsigned};
ghost use Rattle.dagcbor_read.specs.Parts.{ReadsOnce};
ghost use Rattle.serde_ipld_dagcbor.specs.Deserializers.{StaysFailed, Over};
ghost use Rattle.serde_ipld_dagcbor.specs.Values.{ReadsValue};
ghost use Rattle.types_schema.specs.SchemaAnswers.{Makes};
ghost use Rattle.types_schema.specs.ToldValues.{told_by_number};

use serde_ipld_dagcbor::{DecodeError, Deserialize, Deserializer, Read, ReadResult};
use std::alloc::Global;

/// A type whose values are identified by numbers.
pub trait Numbered: Sized + Drop {
    ghost View: { Type 0 };

    ghost meaning: { Self → View };

    /// The value that the number identifies, or `None` if there is no such value.
    ghost told: { ℕ → Option View };

    fn of_number(number: u64) -> Option<Self>
        ensures { option_map meaning result ≡ told number };
}

/// Reads a number and returns the value that it identifies. If there is no such value, the number
/// is refused with `Msg("unknown variant")`.
pub fn read_numbered<'de, T: Numbered, R: Read>(
    alloc: Global,
    de: &mut Deserializer<'de, R>,
) -> ReadResult<T, R>
    ensures value { Over R.reading (ReadsValue T.meaning (told_by_number T.told)) de.old result
        de.new }
    ensures failed { Over R.reading StaysFailed de.old result de.new }
    ensures answers { Over R.reading (Makes T.meaning T.told (codes "unknown variant")
        (ReadsOnce (ReadsUnsigned (codes "u64") (2 ^ 64)) (Looks 3) OfNumber)) de.old result
        de.new }
{
    let number = u64::deserialize(alloc, de)?;
    match T::of_number(number) {
        Some(value) => Ok(value),
        None => Err(DecodeError::custom("unknown variant")),
    }
}
