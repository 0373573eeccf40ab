//! Reads links: tag 42, and in it a byte string of a zero and a CID.

ghost use Rattle.std.specs.Prelude.{◌≡◌, ℕ, List, codes, [], ◌∷◌, MatchResult, MatchOption, IfErr, IfSome};
ghost use Rattle.dagcbor_heads.specs.Fronts.{Takes};
ghost use Rattle.dagcbor_heads.specs.Refusals.{RefusesPlainly};
ghost use Rattle.dagcbor_heads.specs.Looking.{Looks, LooksAfter, LooksAtTaken};
ghost use Rattle.dagcbor_heads.specs.Inputs.{input_reading};
ghost use Rattle.ipld_tree.specs.Cid.{cid_bytes};
ghost use Rattle.ipld_tree.specs.Tree.{bytes};
ghost use Rattle.ipld_tree.specs.Spelling.{IsFront};
ghost use Rattle.dagcbor_items.specs.Shapes.{view_link, leaf};
ghost use Rattle.dagcbor_items.specs.TypedReads.{TakesFront};
ghost use Rattle.dagcbor_items.specs.ReadCauses.{WantedCause};
ghost use Rattle.dagcbor_items.specs.Untyped.{ReadsLeaf, StartsWithMajor, StartsDefinite};
ghost use Rattle.dagcbor_items.specs.Links.{HasWanted, ReadsCid, ReadsLink, IsZeroAndCid};
ghost use Rattle.dagcbor_items.specs.AnsweredVariants.{OfByte, OfItem, OfLink};

use arrayvec::ArrayVec;
use dagcbor_core::{DecodeError, split_head};
use dagcbor_decode::split_payload;
use dagcbor_heads::{
    Input, Read, ReadResult, peek_one, pull_head_argument, pull_one, pull_short_payload,
};
use ipld_tree::{Cid, Ipld};

/// The greatest length of a CID with the zero before it.
pub(crate) const LONGEST_CID: usize = 87;

/// Takes the wanted byte. A missing byte is refused under `name`, a different byte under `other`.
#[tactic(auto, using(crate::proofs::PartRefusals::end_byte))]
pub(crate) fn pull_wanted<R: Read>(
    name: &str,
    other: &str,
    reader: &mut R,
    wanted: u8,
) -> ReadResult<(), R>
    ensures wanted { MatchResult result
        (λ _. Takes (R.reading reader.old) (wanted ∷ []) (R.reading reader.new))
        (λ e. RefusesPlainly (HasWanted wanted (R.reading reader.old))
        (WantedCause name.now other.now wanted) (R.reading reader.old) e (R.reading reader.new)) }
    ensures looked { Looks 2 (R.reading reader.old) result (R.reading reader.new) }
    ensures variant { IfErr result OfByte }
{
    let found = pull_one(name, reader)?;
    if found != wanted {
        return Err(DecodeError::mismatch(other, found));
    }
    Ok(())
}

/// Returns the CID after a zero.
fn cid_after_zero(payload: &[u8]) -> Option<Cid>
    ensures { IsZeroAndCid payload.now result }
{
    match payload {
        [0, cid @ ..] => Cid::try_from(cid).ok(),
        _ => None,
    }
}

/// Returns the byte string after the tag of a link at the front, and the bytes after that.
#[inline(always)]
fn split_tagged(front: &[u8]) -> Option<(&[u8], &[u8])>
    ensures { IfSome result (λ p. (tagged : List ℕ) × (front.now ≡ 0xd8 ∷ 0x2a ∷ tagged)
        × IsFront tagged (bytes p.0.now) p.1.now) }
{
    let [0xd8, 0x2a, tagged @ ..] = front else {
        return None;
    };
    let (major, count, following) = split_head(tagged)?;
    if major != 2 {
        return None;
    }
    split_payload(following, count)
}

/// Takes the link at the front, if all of it is at hand. It may take nothing.
#[inline(always)]
pub fn take_link<R: Read>(input: &mut Input<'_, R>) -> Option<Cid>
    ensures taken { MatchOption result
        (input_reading R.reading input.new ≡ input_reading R.reading input.old)
        (λ c. TakesFront (leaf view_link) (input_reading R.reading input.old) (cid_bytes c)
        (input_reading R.reading input.new)) }
    ensures looked { IfSome result
        (λ _. LooksAtTaken 2 0 (input_reading R.reading input.old)
        (input_reading R.reading input.new)) }
{
    let front = input.at_hand();
    let (payload, following) = split_tagged(front)?;
    let cid = cid_after_zero(payload)?;
    let count = front.len() - following.len();
    if !input.take_at_hand(count) {
        return None;
    }
    Some(cid)
}

#[tactic(auto, using(crate::proofs::PartRefusals::named_link, crate::proofs::PartRefusals::end_link))]
fn pull_cid_string<R: Read>(reader: &mut R) -> ReadResult<Cid, R>
    requires { StartsWithMajor (R.reading reader.old) 2 }
    ensures cid { ReadsCid (R.reading reader.old) result (R.reading reader.new) }
    ensures looked { Looks 2 (R.reading reader.old) result (R.reading reader.new) }
    ensures variant { IfErr result OfLink }
{
    let count = pull_head_argument("cid", reader)?;
    if count > LONGEST_CID as u64 {
        return Err(DecodeError::custom("Invalid CID"));
    }
    let payload: ArrayVec<u8, LONGEST_CID> = pull_short_payload("cid", reader, count)?;
    match cid_after_zero(&payload) {
        Some(cid) => Ok(cid),
        None => Err(DecodeError::custom("Invalid CID")),
    }
}

/// Reads the byte string after the tag.
#[tactic(auto, using(crate::proofs::PartRefusals::end_link))]
fn pull_cid<R: Read>(reader: &mut R) -> ReadResult<Cid, R>
    ensures cid { ReadsCid (R.reading reader.old) result (R.reading reader.new) }
    ensures looked { Looks 3 (R.reading reader.old) result (R.reading reader.new) }
    ensures variant { IfErr result OfLink }
{
    let first = peek_one("cid", reader)?;
    if first / 32 != 2 {
        return Err(DecodeError::unsupported("cid", first));
    }
    pull_cid_string(reader)
}

/// Reads a link, and takes no memory.
#[tactic(auto, using(crate::proofs::PartRefusals::byte_link))]
pub fn pull_link<R: Read>(reader: &mut R) -> ReadResult<Cid, R>
    ensures link { ReadsLink (R.reading reader.old) result (R.reading reader.new) }
    ensures looked { Looks 3 (R.reading reader.old) result (R.reading reader.new) }
    ensures peeked { StartsWithMajor (R.reading reader.old) 6
        → LooksAfter 3 1 (R.reading reader.old) result (R.reading reader.new) }
    ensures variant { IfErr result OfLink }
{
    pull_wanted("tag head", "CBOR tag head", reader, 0xd8)?;
    pull_wanted("tag", "CBOR tag", reader, 0x2a)?;
    pull_cid(reader)
}

#[tactic(auto, using(crate::proofs::PartRefusals::link_item))]
pub(crate) fn read_link<R: Read>(reader: &mut R) -> ReadResult<Ipld, R>
    requires { StartsDefinite (R.reading reader.old) 6 }
    ensures leaf { ReadsLeaf (R.reading reader.old) result (R.reading reader.new) }
    ensures looked { LooksAfter 3 1 (R.reading reader.old) result (R.reading reader.new) }
    ensures variant { IfErr result OfItem }
{
    Ok(Ipld::Link(pull_link(reader)?))
}
