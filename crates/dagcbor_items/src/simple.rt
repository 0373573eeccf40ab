//! Reads null, false and true.

ghost use Rattle.std.specs.Prelude.{IfErr};
ghost use Rattle.dagcbor_items.specs.LeafReads.{ReadsNull, ReadsBool};
ghost use Rattle.dagcbor_heads.specs.Looking.{Looks};
ghost use Rattle.dagcbor_items.specs.AnsweredVariants.{OfByte};

use crate::link::pull_wanted;
use dagcbor_core::DecodeError;
use dagcbor_heads::{Read, ReadResult, pull_one};

/// Reads a null.
#[tactic(auto, using(crate::proofs::SimpleValues::null_read))]
pub fn pull_null<R: Read>(reader: &mut R) -> ReadResult<(), R>
    ensures null { ReadsNull (R.reading reader.old) result (R.reading reader.new) }
    ensures looked { Looks 2 (R.reading reader.old) result (R.reading reader.new) }
    ensures variant { IfErr result OfByte }
{
    pull_wanted("unit", "unit", reader, 0xf6)
}

/// Reads a boolean.
#[tactic(auto, using(crate::proofs::PartRefusals::end_byte))]
pub fn pull_bool<R: Read>(reader: &mut R) -> ReadResult<bool, R>
    ensures value { ReadsBool (R.reading reader.old) result (R.reading reader.new) }
    ensures looked { Looks 2 (R.reading reader.old) result (R.reading reader.new) }
    ensures variant { IfErr result OfByte }
{
    match pull_one("bool", reader)? {
        0xf4 => Ok(false),
        0xf5 => Ok(true),
        found => Err(DecodeError::mismatch("bool", found)),
    }
}
