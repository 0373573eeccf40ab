//! The names that the links of an item lead to.

ghost use Rattle.std.specs.Prelude.{IfOk, IfErr, Err};
ghost use Rattle.std.specs.List.Sorted.{IsStrictlySortedBy};
ghost use Rattle.ipld_tree.specs.Cid.{cid_cmp};
ghost use Rattle.dagcbor_decode.specs.Decode.{decode_first};
ghost use Rattle.dagcbor_decode.specs.Verdicts.{AnswersLinks};
ghost use Rattle.ipld_links.specs.Within.{AreFirstNames, AreNamesOf};
ghost use Rattle.ipld_links.specs.Blocks.{IsBlockOf};

use crate::cid_set::CidSet;
use crate::held::HeldNames;
use dagcbor_core::DecodeError;
use dagcbor_decode::links_from_slice;
use ipld_tree::Cid;
use std::alloc::{AllocError, Global};
use std::convert::Infallible;

/// Returns the names that the links of the first item lead to, each once, in the order of CIDs. A
/// name by the identity holds its block itself: the names that the links of that block lead to take
/// its place.
pub fn names_from_slice(alloc: Global, bytes: &[u8]) -> Result<Vec<Cid>, DecodeError<Infallible>>
    ensures names { IfOk result (λ v. AreFirstNames bytes.now v.items) }
    ensures order { IfOk result (λ v. IsStrictlySortedBy cid_cmp v.items) }
    ensures refused { IfErr result (λ e. AnswersLinks (decode_first bytes.now) (Err e)) }
{
    let links = links_from_slice(alloc, bytes)?;
    if links.is_empty() {
        return Ok(links);
    }
    let mut names = CidSet::new(alloc);
    if names.add_all(&links, &HeldNames::new(alloc)).is_err() {
        return Err(DecodeError::OutOfMemory);
    }
    match names.into_vec(alloc) {
        Ok(list) => Ok(list),
        Err(_) => Err(DecodeError::OutOfMemory),
    }
}

/// Returns the names that the links of a block of the codec lead to, as `names_from_slice` does.
pub fn names_of_block(alloc: Global, codec: u64, block: &[u8]) -> Result<Vec<Cid>, AllocError>
    requires { IsBlockOf codec block.now }
    ensures names { IfOk result (λ v. AreNamesOf codec block.now v.items) }
    ensures order { IfOk result (λ v. IsStrictlySortedBy cid_cmp v.items) }
{
    let mut names = CidSet::new(alloc);
    names.add_links(codec, block, &HeldNames::new(alloc))?;
    names.into_vec(alloc)
}
