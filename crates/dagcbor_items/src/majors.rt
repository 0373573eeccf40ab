//! Reads heads of the major types that are wanted.

ghost use Rattle.std.specs.Prelude.{◌<◌, ◌≤◌, ◌/◌, IfErr, MatchResult};
ghost use Rattle.dagcbor_heads.specs.Fronts.{ShowsByte};
ghost use Rattle.dagcbor_heads.specs.Looking.{Looks, LooksOnce};
ghost use Rattle.dagcbor_heads.specs.Refusals.{RefusesPlainly};
ghost use Rattle.dagcbor_items.specs.Majors.{HasMajor, ReadsMajor};
ghost use Rattle.dagcbor_items.specs.ReadCauses.{MajorCause};
ghost use Rattle.dagcbor_items.specs.AnsweredVariants.{OfByte, OfHead};

use dagcbor_core::DecodeError;
use dagcbor_heads::{Read, ReadResult, peek_one, pull_head};

/// Returns the next byte, if its major type is from `low` to `high`, without taking it.
#[tactic(auto, using(crate::proofs::PartRefusals::end_byte))]
pub(crate) fn peek_major<R: Read>(
    name: &str,
    reader: &mut R,
    low: u8,
    high: u8,
) -> ReadResult<u8, R>
    ensures kind { MatchResult result
        (λ first. (low ≤ first / 32) × (first / 32 ≤ high)
        × ShowsByte (R.reading reader.old) first (R.reading reader.new))
        (λ e. RefusesPlainly (HasMajor low high (R.reading reader.old))
        (MajorCause name.now low high) (R.reading reader.old) e (R.reading reader.new)) }
    ensures looked { LooksOnce (R.reading reader.old) (R.reading reader.new) }
    ensures variant { IfErr result OfByte }
{
    let first = peek_one(name, reader)?;
    let major = first / 32;
    if major < low || high < major {
        return Err(DecodeError::mismatch(name, first));
    }
    Ok(first)
}

/// Takes the next head, after a separate look at its first byte, so that a refusal names its cause.
#[tactic(auto, using(crate::proofs::PartRefusals::named_kind, crate::proofs::PartRefusals::byte_kind))]
#[cold]
#[inline(never)]
fn pull_major_slowly<R: Read>(
    name: &str,
    reader: &mut R,
    low: u8,
    high: u8,
) -> ReadResult<(u8, u64), R>
    requires { high < 8 }
    ensures kind { ReadsMajor name.now low high (R.reading reader.old) result
        (R.reading reader.new) }
    ensures looked { Looks 3 (R.reading reader.old) result (R.reading reader.new) }
    ensures variant { IfErr result OfHead }
{
    let first = peek_major(name, reader, low, high)?;
    let (_, argument, _) = pull_head(name, reader)?;
    Ok((first / 32, argument))
}

/// Takes the next head, if its major type is from `low` to `high`, and returns its major type and
/// argument. A head of another major type is taken too, if all of it is at hand.
#[inline(always)]
pub fn pull_major<R: Read>(
    name: &str,
    reader: &mut R,
    low: u8,
    high: u8,
) -> ReadResult<(u8, u64), R>
    requires { high < 8 }
    ensures kind { ReadsMajor name.now low high (R.reading reader.old) result
        (R.reading reader.new) }
    ensures looked { Looks 3 (R.reading reader.old) result (R.reading reader.new) }
    ensures variant { IfErr result OfHead }
{
    if let Some((major, argument, first)) = reader.take_head() {
        if major < low || high < major {
            return Err(DecodeError::mismatch(name, first));
        }
        return Ok((major, argument));
    }
    pull_major_slowly(name, reader, low, high)
}
