//! A section at the front of bytes: the name of a block, and the block.

ghost use Rattle.std.specs.Prelude.{◌≡◌, ◌<◌, ◌≤◌, ◌∷◌, ◌++◌, length, drop, MatchResult};
ghost use Rattle.files_car.specs.declared.error.CarError.TheVariants.{Truncated};
ghost use Rattle.files_car.specs.Splits.{SplitsCounted, CountFault, BeginsWithCid, BeginsNoCid};
ghost use Rattle.files_car.specs.Splits.{SplitsSection, BeginsNoSection, SectionFault};

use crate::error::CarError;
use ipld_tree::{Cid, CidError, split_varint};
use std::convert::Infallible;

/// The greatest length of a digest, in bytes.
const LONGEST_DIGEST: u64 = 64;

/// A block of a file and its name. The name may be another block's.
#[derive(Clone, Copy, Debug)]
pub struct Section<'a> {
    pub cid: Cid,
    pub block: &'a [u8],
}

/// Returns the section at the front, and the bytes after it.
pub fn split_section(bytes: &[u8]) -> Result<(Section<'_>, &[u8]), CarError<Infallible>>
    ensures { MatchResult result
        (λ p. SplitsSection bytes.now (p.0.cid, p.0.block.now) p.1.now)
        (λ e. BeginsNoSection bytes.now × SectionFault e bytes.now) }
{
    let (body, rest) = split_counted(bytes)?;
    match split_cid(body) {
        Ok((cid, block)) => Ok((Section { cid, block }, rest)),
        Err(fault) => Err(CarError::InvalidCid(fault)),
    }
}

/// Returns the bytes that the length at the front counts, and the bytes after those.
pub(crate) fn split_counted(bytes: &[u8]) -> Result<(&[u8], &[u8]), CarError<Infallible>>
    ensures { MatchResult result
        (λ p. SplitsCounted bytes.now p.0.now p.1.now)
        (λ e. CountFault e bytes.now) }
{
    match split_varint(bytes) {
        Ok((count, rest)) => split_bytes(rest, count),
        Err(CidError::Truncated) => Err(CarError::Truncated),
        Err(_) => Err(CarError::InvalidLength),
    }
}

/// Returns the first `count` bytes, and the bytes after them.
fn split_bytes(bytes: &[u8], count: u64) -> Result<(&[u8], &[u8]), CarError<Infallible>>
    ensures { MatchResult result
        (λ p. (length p.0.now ≡ count) × (bytes.now ≡ p.0.now ++ p.1.now))
        (λ e. (e ≡ Truncated) × (length bytes.now < count)) }
{
    match bytes.split_at_checked(count as usize) {
        Some(parts) => Ok(parts),
        None => Err(CarError::Truncated),
    }
}

/// Returns the CID at the front, and its length in bytes.
pub(crate) fn measure_cid(bytes: &[u8]) -> Result<(Cid, usize), CidError>
    ensures { MatchResult result
        (λ p. (p.1 ≤ length bytes.now) × BeginsWithCid bytes.now p.0 (drop p.1 bytes.now))
        (λ e. BeginsNoCid e bytes.now) }
{
    match split_cid(bytes) {
        Ok((cid, rest)) => Ok((cid, bytes.len() - rest.len())),
        Err(fault) => Err(fault),
    }
}

/// Returns the CID at the front, and the bytes after it. The error is that of `Cid::try_from`.
fn split_cid(bytes: &[u8]) -> Result<(Cid, &[u8]), CidError>
    ensures { MatchResult result
        (λ p. BeginsWithCid bytes.now p.0 p.1.now)
        (λ e. BeginsNoCid e bytes.now) }
{
    match bytes {
        [] => Err(CidError::Truncated),
        [0x01, fields @ ..] => split_version_1(fields),
        [0x12, 0x20, digest @ ..] => split_version_0(digest),
        _ => Err(CidError::InvalidVersion),
    }
}

/// Returns the CID of version 0 whose first two bytes came before these, and the bytes after it.
#[tactic(auto, using(crate::proofs::Fronts::front_of_digest))]
fn split_version_0(bytes: &[u8]) -> Result<(Cid, &[u8]), CidError>
    ensures { MatchResult result
        (λ p. BeginsWithCid (0x12 ∷ 0x20 ∷ bytes.now) p.0 p.1.now)
        (λ e. BeginsNoCid e (0x12 ∷ 0x20 ∷ bytes.now)) }
{
    match bytes.split_first_chunk::<32>() {
        Some((digest, rest)) => Ok((Cid::new_v0(*digest), rest)),
        None => Err(CidError::InvalidVersion),
    }
}

/// Returns the CID of version 1 whose first byte came before these, and the bytes after it.
fn split_version_1(fields: &[u8]) -> Result<(Cid, &[u8]), CidError>
    ensures { MatchResult result
        (λ p. BeginsWithCid (0x01 ∷ fields.now) p.0 p.1.now)
        (λ e. BeginsNoCid e (0x01 ∷ fields.now)) }
{
    let (codec, rest) = split_varint(fields)?;
    let (hash_code, rest) = split_varint(rest)?;
    let (length, rest) = split_varint(rest)?;
    if length > LONGEST_DIGEST {
        return Err(CidError::DigestTooLong);
    }
    match rest.split_at_checked(length as usize) {
        Some((digest, block)) => Ok((Cid::new_v1(codec, hash_code, digest).unwrap(), block)),
        None => Err(CidError::Truncated),
    }
}
