//! Reads numbers.

ghost use Rattle.std.specs.Prelude.{◌≡◌, ◌+◌, ◌≤◌, ◌^◌, Some, IfOk, pos, negsuc, ◌≤ℤ◌, IfErr};
ghost use Rattle.dagcbor_items.specs.TypedReads.{Reads};
ghost use Rattle.dagcbor_items.specs.Shapes.{number_of, natural_below, within, view_number, leaf};
ghost use Rattle.dagcbor_items.specs.ReadCauses.{MajorCause, BigCause};
ghost use Rattle.dagcbor_items.specs.LeafReads.{ReadsUnsigned, ReadsSigned, ReadsU128, ReadsI128};
ghost use Rattle.dagcbor_heads.specs.Looking.{Looks};
ghost use Rattle.dagcbor_items.specs.AnsweredVariants.{OfHead, OfNumber};

use crate::majors::pull_major;
use dagcbor_core::DecodeError;
use dagcbor_heads::{Read, ReadResult, peek_one};

/// Returns the number whose head has this major type, 0 or 1, and this argument.
pub(crate) fn number_of(major: u8, argument: u64) -> i128
    ensures { result ≡ number_of major argument }
{
    if major == 0 {
        i128::from(argument)
    } else {
        -1 - i128::from(argument)
    }
}

/// Reads a number of any size.
#[inline(always)]
#[tactic(auto, using(dagcbor_heads::proofs::Refusing::as_refusal, crate::proofs::Integers::number_refused))]
fn pull_number<R: Read>(name: &str, reader: &mut R) -> ReadResult<i128, R>
    ensures number { Reads
        (λ n. n) (leaf (view_number Some)) ⊥ ⊥ (MajorCause name.now 0 1)
        (R.reading reader.old) result (R.reading reader.new) }
    ensures looked { Looks 3 (R.reading reader.old) result (R.reading reader.new) }
    ensures variant { IfErr result OfHead }
{
    let (major, argument) = pull_major(name, reader, 0, 1)?;
    Ok(number_of(major, argument))
}

/// Returns the number, if it is from -1 - `greatest` to `greatest`.
fn signed_of(number: i128, greatest: u64) -> Option<i128>
    ensures { result ≡ within (greatest + 1) number }
{
    if number > i128::from(greatest) || number < -1 - i128::from(greatest) {
        return None;
    }
    Some(number)
}

/// Reads a number from 0 to `greatest`.
#[tactic(auto, using(crate::proofs::PartRefusals::kind_number))]
#[inline(always)]
pub fn pull_unsigned<R: Read>(name: &str, reader: &mut R, greatest: u64) -> ReadResult<u64, R>
    ensures number { ReadsUnsigned name.now (greatest + 1) (R.reading reader.old) result
        (R.reading reader.new) }
    ensures most { IfOk result (λ n. n ≤ greatest) }
    ensures looked { Looks 3 (R.reading reader.old) result (R.reading reader.new) }
    ensures variant { IfErr result OfNumber }
{
    let (major, argument) = pull_major(name, reader, 0, 1)?;
    if major > 0 || argument > greatest {
        return Err(DecodeError::out_of_range(name));
    }
    Ok(argument)
}

/// Reads a number from -1 - `greatest` to `greatest`.
#[tactic(auto, using(crate::proofs::PartRefusals::kind_number))]
pub fn pull_signed<R: Read>(name: &str, reader: &mut R, greatest: u64) -> ReadResult<i128, R>
    ensures number { ReadsSigned name.now (greatest + 1) (R.reading reader.old) result
        (R.reading reader.new) }
    ensures least { IfOk result (λ n. negsuc greatest ≤ℤ n) }
    ensures most { IfOk result (λ n. n ≤ℤ pos greatest) }
    ensures looked { Looks 3 (R.reading reader.old) result (R.reading reader.new) }
    ensures variant { IfErr result OfNumber }
{
    let number = pull_number(name, reader)?;
    match signed_of(number, greatest) {
        Some(signed) => Ok(signed),
        None => Err(DecodeError::out_of_range(name)),
    }
}

/// Reads a number of any size. The tag of a bignum is refused.
#[tactic(auto, using(crate::proofs::PartRefusals::end_kind))]
fn pull_big<R: Read>(name: &str, reader: &mut R) -> ReadResult<i128, R>
    ensures number { Reads
        (λ n. n) (leaf (view_number Some)) ⊥ ⊥ (BigCause name.now) (R.reading reader.old) result
        (R.reading reader.new) }
    ensures looked { Looks 4 (R.reading reader.old) result (R.reading reader.new) }
    ensures variant { IfErr result OfHead }
{
    let first = peek_one(name, reader)?;
    if first == 0xc2 || first == 0xc3 {
        return Err(DecodeError::unsupported(name, first));
    }
    pull_number(name, reader)
}

/// Returns the number, if it is not negative.
fn big_natural_of(number: i128) -> Option<u128>
    ensures { result ≡ natural_below (2 ^ 128) number }
{
    u128::try_from(number).ok()
}

/// Reads a number that is not negative, of any size that has a spelling.
#[tactic(auto, using(crate::proofs::PartRefusals::kind_number))]
pub fn pull_u128<R: Read>(reader: &mut R) -> ReadResult<u128, R>
    ensures number { ReadsU128 (R.reading reader.old) result (R.reading reader.new) }
    ensures looked { Looks 4 (R.reading reader.old) result (R.reading reader.new) }
    ensures variant { IfErr result OfNumber }
{
    let number = pull_big("u128", reader)?;
    match big_natural_of(number) {
        Some(natural) => Ok(natural),
        None => Err(DecodeError::out_of_range("u128")),
    }
}

/// Reads a number of any size that has a spelling.
pub fn pull_i128<R: Read>(reader: &mut R) -> ReadResult<i128, R>
    ensures number { ReadsI128 (R.reading reader.old) result (R.reading reader.new) }
    ensures looked { Looks 4 (R.reading reader.old) result (R.reading reader.new) }
    ensures variant { IfErr result OfHead }
{
    let number = pull_big("i128", reader)?;
    Ok(number)
}
