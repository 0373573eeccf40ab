//! Reads the front of a data model's block, part by part. `None` says that the part is not there.

ghost use Rattle.std.specs.Prelude.{◌≡◌, ◌≢◌, ◌++◌, ◌∷◌, [], ℕ, List, Option, pos, codes, option_map, MatchOption};
ghost use Rattle.ipld_tree.specs.Cid.{AreCidParts, IsCid, cid_bytes};
ghost use Rattle.ipld_tree.specs.Tree.{text, bytes, integer, link};
ghost use Rattle.ipld_tree.specs.Spelling.{IsFront};
ghost use Rattle.dagcbor_decode.specs.Fronts.{SplitsPayload, SplitsText};
ghost use Rattle.dag_pb.specs.Reads.{link_of};
ghost use Rattle.dag_pb_model.specs.Reading.{IsEntry, AreEnds, HasNoEnds, IsLinkModel, BeginsNoLinkModel};

use dag_pb::PbLink;
use dagcbor_core::split_head;
use dagcbor_decode::{is_text, split_payload};
use ipld_tree::Cid;

/// Returns the bytes after `front`, if they begin with it.
pub(crate) fn after_front<'a>(bytes: &'a [u8], front: &[u8]) -> Option<&'a [u8]>
    ensures { MatchOption result ((rest : List ℕ) → bytes.now ≢ front.now ++ rest)
        (λ rest. bytes.now ≡ front.now ++ rest.now) }
{
    bytes.strip_prefix(front)
}

/// Returns the bytes of the byte string at the front, and the bytes after it.
pub(crate) fn split_bytes(block: &[u8]) -> Option<(&[u8], &[u8])>
    ensures { MatchOption result
        (¬ ((s : List ℕ) × (rest : List ℕ) × IsFront block.now (bytes s) rest))
        (λ p. IsFront block.now (bytes p.0.now) p.1.now) }
{
    let (major, count, more) = split_head(block)?;
    if major != 2 {
        return None;
    }
    split_payload(more, count)
}

/// Returns the first n bytes, if they are UTF-8, and the bytes after them.
fn split_payload_text(bytes: &[u8], n: u64) -> Option<(&[u8], &[u8])>
    ensures { MatchOption result
        (¬ ((s : List ℕ) × (rest : List ℕ) × SplitsText bytes.now n s rest))
        (λ p. SplitsText bytes.now n p.0.now p.1.now) }
{
    let (payload, rest) = split_payload(bytes, n)?;
    if !is_text(payload) {
        return None;
    }
    Some((payload, rest))
}

/// Returns the bytes of the text at the front, and the bytes after it.
fn split_text(bytes: &[u8]) -> Option<(&[u8], &[u8])>
    ensures { MatchOption result
        (¬ ((s : List ℕ) × (rest : List ℕ) × IsFront bytes.now (text s) rest))
        (λ p. IsFront bytes.now (text p.0.now) p.1.now) }
{
    let (major, count, more) = split_head(bytes)?;
    if major != 3 {
        return None;
    }
    split_payload_text(more, count)
}

/// Returns the number at the front, which is not below zero, and the bytes after it.
fn split_number(bytes: &[u8]) -> Option<(u64, &[u8])>
    ensures { MatchOption result
        (¬ ((n : ℕ) × (rest : List ℕ) × IsFront bytes.now (integer (pos n)) rest))
        (λ p. IsFront bytes.now (integer (pos p.0)) p.1.now) }
{
    let (major, number, more) = split_head(bytes)?;
    if major != 0 {
        return None;
    }
    Some((number, more))
}

/// Returns the CID in the payload of a link, after its zero byte.
fn cid_after_zero(payload: &[u8]) -> Option<Cid>
    ensures { MatchOption result
        (¬ ((cid : List ℕ) × IsCid cid × (payload.now ≡ 0x00 ∷ cid)))
        (λ cid. AreCidParts cid × (payload.now ≡ 0x00 ∷ cid_bytes cid)) }
{
    let (zero, form) = payload.split_first()?;
    if *zero != 0 {
        return None;
    }
    match Cid::try_from(form) {
        Ok(cid) => Some(cid),
        Err(_) => None,
    }
}

/// The CID of a link, and the bytes after that link.
#[derive(Clone, Copy, Debug)]
struct Linked<'a> {
    cid: Cid,
    rest: &'a [u8],
}

/// Returns the CID of the link at the front, and the bytes after it.
fn split_link(bytes: &[u8]) -> Option<Linked<'_>>
    ensures { MatchOption result
        (¬ ((cid : List ℕ) × (rest : List ℕ) × IsFront bytes.now (link cid) rest))
        (λ l. AreCidParts l.cid × IsFront bytes.now (link (cid_bytes l.cid)) l.rest.now) }
{
    let tagged = after_front(bytes, b"\xd8\x2a")?;
    let (payload, rest) = split_bytes(tagged)?;
    let cid = cid_after_zero(payload)?;
    Some(Linked { cid, rest })
}

/// Returns the CID in the entry `Hash` at the front, and the bytes after it.
fn split_hash(bytes: &[u8]) -> Option<Linked<'_>>
    ensures { MatchOption result
        (¬ ((cid : List ℕ) × (rest : List ℕ) × IsEntry bytes.now (codes "Hash") (link cid) rest))
        (λ l. AreCidParts l.cid
        × IsEntry bytes.now (codes "Hash") (link (cid_bytes l.cid)) l.rest.now) }
{
    let following = after_front(bytes, b"\x64Hash")?;
    split_link(following)
}

/// Returns the name in the entry `Name` at the front, and the bytes after it.
fn split_name(bytes: &[u8]) -> Option<(&[u8], &[u8])>
    ensures { MatchOption result
        (¬ ((name : List ℕ) × (rest : List ℕ) × IsEntry bytes.now (codes "Name") (text name) rest))
        (λ p. IsEntry bytes.now (codes "Name") (text p.0.now) p.1.now) }
{
    let following = after_front(bytes, b"\x64Name")?;
    let (name, rest) = split_text(following)?;
    Some((name, rest))
}

/// Returns the size in the entry `Tsize` at the front, and the bytes after it.
fn split_size(bytes: &[u8]) -> Option<(u64, &[u8])>
    ensures { MatchOption result
        (¬ ((n : ℕ) × (rest : List ℕ)
        × IsEntry bytes.now (codes "Tsize") (integer (pos n)) rest))
        (λ p. IsEntry bytes.now (codes "Tsize") (integer (pos p.0)) p.1.now) }
{
    let following = after_front(bytes, b"\x65Tsize")?;
    let (size, rest) = split_number(following)?;
    Some((size, rest))
}

/// Returns the name or else the size at the front, and the bytes after it.
fn split_one_end(bytes: &[u8]) -> Option<(Option<&[u8]>, Option<u64>, &[u8])>
    ensures { MatchOption result (HasNoEnds 2 bytes.now)
        (λ p. AreEnds 2 bytes.now (option_map (λ b. b.now) p.0) p.1 p.2.now) }
{
    match split_name(bytes) {
        Some((name, rest)) => Some((Some(name), None, rest)),
        None => {
            let (size, rest) = split_size(bytes)?;
            Some((None, Some(size), rest))
        }
    }
}

/// Returns the name and the size at the front, and the bytes after them.
fn split_both_ends(bytes: &[u8]) -> Option<(Option<&[u8]>, Option<u64>, &[u8])>
    ensures { MatchOption result (HasNoEnds 3 bytes.now)
        (λ p. AreEnds 3 bytes.now (option_map (λ b. b.now) p.0) p.1 p.2.now) }
{
    let (name, following) = split_name(bytes)?;
    let (size, rest) = split_size(following)?;
    Some((Some(name), Some(size), rest))
}

/// Returns the name and the size of a link of this many entries, and the bytes after them.
fn split_ends(count: u64, bytes: &[u8]) -> Option<(Option<&[u8]>, Option<u64>, &[u8])>
    ensures { MatchOption result (HasNoEnds count bytes.now)
        (λ p. AreEnds count bytes.now (option_map (λ b. b.now) p.0) p.1 p.2.now) }
{
    match count {
        1 => Some((None, None, bytes)),
        2 => split_one_end(bytes),
        3 => split_both_ends(bytes),
        _ => None,
    }
}

/// Returns the link whose data model is at the front, and the bytes after it.
pub(crate) fn next_model_link(bytes: &[u8]) -> Option<(PbLink<'_>, &[u8])>
    ensures { MatchOption result (BeginsNoLinkModel bytes.now)
        (λ p. IsLinkModel bytes.now (link_of p.0) p.1.now) }
{
    let (major, count, following) = split_head(bytes)?;
    if major != 5 {
        return None;
    }
    let Some(linked) = split_hash(following) else {
        return None;
    };
    let (name, tsize, rest) = split_ends(count, linked.rest)?;
    let hash = linked.cid;
    Some((PbLink { hash, name, tsize }, rest))
}
