//! The blocks that a store keeps under their names.

ghost use Rattle.std.specs.Prelude.{MatchBool, MatchResult};
ghost use Rattle.ipld_links.specs.Verdicts.{IsDagCbor};
ghost use Rattle.ipld_links.specs.Sound.{IsSound, IsUnsound};

use crate::name::{DAG_CBOR, SHA2_256};
use crate::verdict::{Verdict, verify};
use dag_pb::PbError;
use dagcbor_core::DecodeError;
use dagcbor_decode::judge_slice;
use ipld_tree::Cid;
use std::convert::Infallible;
use thiserror::Error;

/// Why a store does not keep a block under a name.
#[derive(Debug, Drop, Error)]
pub enum Unsound {
    /// The name is not by a SHA-256 of 32 bytes.
    #[error("the block is named by another hash function than SHA-256")]
    OtherHash,
    /// The SHA-256 of the block is not the one in its name.
    #[error("the block has other bytes than its name says")]
    OtherBytes,
    /// The block has the digest in its name, whose codec is DAG-CBOR, but is not DAG-CBOR that is
    /// read within 256 steps. The fields are the cause and its byte, counted from 0; if the block
    /// ends too early, that is its length.
    #[error("the block is no DAG-CBOR: {0} at byte {1}")]
    NoBlock(DecodeError<Infallible>, usize),
    /// The block has the digest in its name, whose codec is DAG-PB, but it is not a node of DAG-PB,
    /// for this cause.
    #[error("the block is no DAG-PB: {0}")]
    NoNode(PbError),
}

/// Validates a block before a store keeps it under the name. The digest in the name must be the
/// SHA-256 of the block, of 32 bytes. If its codec is DAG-CBOR, the block must be read within 256
/// steps. If its codec is DAG-PB, the block must be a node.
#[tactic(auto, using(crate::proofs::Sounding::sound_read, crate::proofs::Sounding::sound_unread, crate::proofs::Sounding::sound_unknown, crate::proofs::Sounding::sound_node, crate::proofs::Sounding::unsound_node, crate::proofs::Sounding::sound_after, crate::proofs::Sounding::unsound_refused, crate::proofs::Sounding::unsound_bytes))]
pub fn check_block(name: &Cid, block: &[u8]) -> Result<(), Unsound>
    ensures { MatchResult result (λ _. IsSound (name.now, block.now))
        (IsUnsound (name.now, block.now)) }
{
    if name.hash_code() != SHA2_256 {
        return Err(Unsound::OtherHash);
    }
    match verify(name, block) {
        Verdict::Block(_) => Ok(()),
        Verdict::Node => Ok(()),
        Verdict::NotRead => Ok(()),
        Verdict::LinksNotRead => Ok(()),
        Verdict::NoNode(error) => Err(Unsound::NoNode(error)),
        Verdict::Refused(_cause) => match judge_slice(block) {
            Ok(_kind) => Ok(()),
            Err(refused) => Err(Unsound::NoBlock(refused.cause, refused.place)),
        },
        Verdict::OtherBytes => Err(Unsound::OtherBytes),
        Verdict::Unverified => Err(Unsound::OtherHash),
    }
}

/// Returns whether the codec of the name is DAG-CBOR, whose values can be read.
pub fn is_dag_cbor(name: &Cid) -> bool
    ensures { MatchBool result (IsDagCbor name.now) (¬ IsDagCbor name.now) }
{
    name.codec() == DAG_CBOR
}
