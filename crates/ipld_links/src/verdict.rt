//! Verdicts on blocks under a name.

ghost use Rattle.std.specs.Prelude.{◌≡◌, ◌≢◌, ◌↔◌, length, IsTrue, MatchOption};
ghost use Rattle.sha2.specs.Sha256.{sha256};
ghost use Rattle.ipld_links.specs.Blocks.{HasKnownLinks};
ghost use Rattle.ipld_links.specs.Verdicts.{IsVerified, IsTestable, IsVerdictOn, IsVerdict, HidesLinks};

use crate::block::is_block_of;
use crate::name::{DAG_CBOR, DAG_PB, IDENTITY, RAW, SHA2_256};
use dag_pb::{PbError, check_node};
use dagcbor_core::DecodeError;
use dagcbor_decode::{Kind, check_slice};
use ipld_tree::Cid;
use sha2::{Digest, Sha256};
use std::convert::Infallible;

/// The length of a SHA-256, in bytes.
const SHA2_256_LENGTH: usize = 32;

/// The verdict on a block under a name.
#[derive(Debug, Drop)]
pub enum Verdict {
    /// The block is verified, and is DAG-CBOR of this kind.
    Block(Kind),
    /// The block is verified, but not DAG-CBOR, though its name says so, for this cause.
    Refused(DecodeError<Infallible>),
    /// The block is verified, and is a node of DAG-PB.
    Node,
    /// The block is verified, but not DAG-PB, though its name says so, for this cause.
    NoNode(PbError),
    /// The digest of the block is not that of its name.
    OtherBytes,
    /// The block is verified. It is raw, has no links, and was not read.
    NotRead,
    /// The block is verified. Blocks of its codec can have links, which this library does not read.
    LinksNotRead,
    /// The name is neither by a SHA-256 of 32 bytes nor by the identity. The block was not read.
    Unverified,
}

/// Verifies the block against the CID. If the CID says that it is DAG-CBOR or DAG-PB, validates it.
#[tactic(auto, using(crate::proofs::Judging::verdict_of))]
pub fn verify(cid: &Cid, block: &[u8]) -> Verdict
    ensures { IsVerdict (cid.now, block.now) result }
{
    let Some(is_named) = names(cid, block) else {
        return Verdict::Unverified;
    };
    if !is_named {
        return Verdict::OtherBytes;
    }
    verdict_on(cid.codec(), block)
}

/// Returns the verdict on the bytes as a block of the codec, whatever their name.
pub fn verdict_on(codec: u64, block: &[u8]) -> Verdict
    ensures { IsVerdictOn codec block.now result }
{
    match codec {
        DAG_CBOR => verdict_on_item(block),
        DAG_PB => verdict_on_node(block),
        RAW => Verdict::NotRead,
        _ => Verdict::LinksNotRead,
    }
}

/// Returns the verdict on the bytes as a block of DAG-CBOR.
fn verdict_on_item(block: &[u8]) -> Verdict
    ensures { IsVerdictOn 0x71 block.now result }
{
    match check_slice(block) {
        Ok(kind) => Verdict::Block(kind),
        Err(error) => Verdict::Refused(error),
    }
}

/// Returns the verdict on the bytes as a block of DAG-PB.
fn verdict_on_node(block: &[u8]) -> Verdict
    ensures { IsVerdictOn 0x70 block.now result }
{
    match check_node(block) {
        Ok(()) => Verdict::Node,
        Err(error) => Verdict::NoNode(error),
    }
}

/// Returns the verdict on the bytes as a block of the codec, if their links are not known. `None`
/// if they are.
pub fn hidden_links(codec: u64, block: &[u8]) -> Option<Verdict>
    ensures { MatchOption result (HasKnownLinks codec block.now) (HidesLinks codec block.now) }
{
    if codec == RAW || is_block_of(codec, block) {
        return None;
    }
    Some(verdict_on(codec, block))
}

/// Returns whether the digest in the CID is that of the block. `None` if that cannot be told: the
/// CID is neither by a SHA-256 of 32 bytes nor by the identity.
fn names(cid: &Cid, block: &[u8]) -> Option<bool>
    ensures { MatchOption result (¬ IsTestable cid.now)
        (λ is_named. IsTestable cid.now × (IsTrue is_named ↔ IsVerified (cid.now, block.now))) }
{
    match cid.hash_code() {
        SHA2_256 => is_sha256(cid.digest(), block),
        IDENTITY => Some(cid.digest() == block),
        _ => None,
    }
}

/// Returns whether the digest is the SHA-256 of the block. `None` if it has not 32 bytes.
fn is_sha256(digest: &[u8], block: &[u8]) -> Option<bool>
    ensures { MatchOption result (length digest.now ≢ 32)
        (λ same. (length digest.now ≡ 32) × (IsTrue same ↔ (digest.now ≡ sha256 block.now))) }
{
    if digest.len() != SHA2_256_LENGTH {
        return None;
    }
    Some(digest == Sha256::digest(block).as_slice())
}
