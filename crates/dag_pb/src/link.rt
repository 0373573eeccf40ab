//! The message of a link.

ghost use Rattle.std.specs.Prelude.{◌≡◌, ◌++◌, ℕ, List, Option, option_map, MatchResult, length};
ghost use Rattle.dag_pb.specs.Node.{BeginsWithBytes, BeginsNoBytes, MayBeginWithBytes, MayBeNumber};
ghost use Rattle.dag_pb.specs.Node.{IsLinkEnd, HasOneEnd};
ghost use Rattle.dag_pb.specs.Node.{LinkParts, IsLink};
ghost use Rattle.dag_pb.specs.Causes.{StopsIn};
ghost use Rattle.dag_pb.specs.Reads.{link_of};

use crate::error::PbCause;
use crate::stop::Stop;
use crate::varint::{split_counted, split_varint};
use ipld_tree::Cid;

/// The tag of the CID: field 1, of bytes.
pub(crate) const HASH: u64 = 0x0a;

/// The tag of the name: field 2, of bytes.
pub(crate) const NAME: u64 = 0x12;

/// The tag of the size: field 3, a number.
pub(crate) const TSIZE: u64 = 0x18;

/// A link of a node.
#[derive(Clone, Copy, Debug)]
pub struct PbLink<'a> {
    /// The CID of the block that the link leads to.
    pub hash: Cid,
    /// The name of the link, which need not be UTF-8.
    pub name: Option<&'a [u8]>,
    /// The size of all blocks below the link together, as its author gave it.
    pub tsize: Option<u64>,
}

/// Reads the bytes as the whole message of a link, and returns the link.
pub(crate) fn read_link(message: &[u8]) -> Result<PbLink<'_>, Stop>
    ensures { MatchResult result
        (λ link. IsLink message.now (link_of link))
        (λ stop. ((link : LinkParts) → ¬ IsLink message.now link) × StopsIn message.now stop) }
{
    if message.is_empty() {
        return Err(Stop::before(PbCause::NoHash, message));
    }
    let (form, following) = split_bytes(HASH, message)?;
    match Cid::try_from(form) {
        Ok(hash) => match read_link_end(following) {
            Ok((name, tsize)) => Ok(PbLink { hash, name, tsize }),
            Err(stop) => Err(stop),
        },
        Err(fault) => Err(Stop {
            cause: PbCause::InvalidCid(fault),
            left: form.len() + following.len(),
        }),
    }
}

/// Returns the name and the size after the CID, which must end the message. Either may be left out.
fn read_link_end(bytes: &[u8]) -> Result<(Option<&[u8]>, Option<u64>), Stop>
    ensures { MatchResult result
        (λ p. IsLinkEnd bytes.now (option_map (λ b. b.now) p.0) p.1)
        (λ stop. ((name : Option (List ℕ)) (tsize : Option ℕ) → ¬ IsLinkEnd bytes.now name tsize)
        × StopsIn bytes.now stop) }
{
    let (name, following) = split_name(bytes)?;
    let tsize = read_tsize(following)?;
    Ok((name, tsize))
}

/// Returns the bytes of the field with this tag at the front, and the bytes after the field.
fn split_bytes(tag: u64, bytes: &[u8]) -> Result<(&[u8], &[u8]), Stop>
    ensures { MatchResult result
        (λ p. BeginsWithBytes tag bytes.now p.0.now p.1.now)
        (λ stop. BeginsNoBytes tag bytes.now × StopsIn bytes.now stop) }
{
    let (found, following) = split_varint(bytes)?;
    if found != tag {
        return Err(Stop::before(PbCause::UnexpectedField(found), bytes));
    }
    split_counted(following)
}

/// Returns the name at the front, if there is one, and the bytes after it.
fn split_name(bytes: &[u8]) -> Result<(Option<&[u8]>, &[u8]), Stop>
    ensures { MatchResult result
        (λ p. MayBeginWithBytes 0x12 bytes.now (option_map (λ b. b.now) p.0) p.1.now
        × HasOneEnd bytes.now p.1.now)
        (λ stop. ((name : Option (List ℕ)) (tsize : Option ℕ) → ¬ IsLinkEnd bytes.now name tsize)
        × StopsIn bytes.now stop) }
{
    if bytes.is_empty() {
        return Ok((None, bytes));
    }
    let (found, following) = split_varint(bytes)?;
    if found != NAME {
        return Ok((None, bytes));
    }
    let (name, rest) = split_counted(following)?;
    Ok((Some(name), rest))
}

/// Returns the size, if there is one. It must end the message.
fn read_tsize(bytes: &[u8]) -> Result<Option<u64>, Stop>
    ensures { MatchResult result
        (λ size. MayBeNumber 0x18 bytes.now size)
        (λ stop. ((size : Option ℕ) → ¬ MayBeNumber 0x18 bytes.now size) × StopsIn bytes.now stop) }
{
    if bytes.is_empty() {
        return Ok(None);
    }
    let (found, following) = split_varint(bytes)?;
    if found != TSIZE {
        return Err(Stop::before(PbCause::UnexpectedField(found), bytes));
    }
    let (size, rest) = split_varint(following)?;
    if rest.is_empty() {
        return Ok(Some(size));
    }
    let (next, _following) = split_varint(rest)?;
    Err(Stop::before(PbCause::UnexpectedField(next), rest))
}
