//! Finds the links of an item that was judged, and tests none of its bytes again.

ghost use Rattle.std.specs.Prelude.{◌≡◌, ◌<◌, ◌≤◌, ◌+◌, List, ℕ, [], ◌∷◌, length, drop, map, IsTrue};
ghost use Rattle.std.specs.Prelude.{IfSome, IfOk, IfErr, ◌≢◌, MatchOption, MatchResult, if◌then◌else◌};
ghost use Rattle.ipld_tree.specs.Cid.{cid_bytes};
ghost use Rattle.dagcbor_decode.specs.Decode.{decode_first};
ghost use Rattle.dagcbor_decode.specs.Fronts.{SplitsCid};
ghost use Rattle.dagcbor_decode.specs.Rows.{HoldsLinks, IsFirstItem, is_string};
ghost use Rattle.dagcbor_decode.specs.Blocks.{AreFirstLinks};
ghost use Rattle.dagcbor_decode.specs.Verdicts.{AnswersLinks, IsRefusal};

use crate::cause::Stop;
use crate::judge::judge_item;
use dagcbor_core::{DEFAULT_STEPS, DecodeError, split_head};
use ipld_tree::Cid;
use std::alloc::{AllocError, Global};
use std::convert::Infallible;

/// Returns the CID after the tag of a link, and the bytes after it.
fn split_link(bytes: &[u8]) -> (Cid, &[u8])
    requires { (cid : List ℕ) × (rest : List ℕ) × SplitsCid bytes.now cid rest }
    ensures { SplitsCid bytes.now (cid_bytes result.0) result.1.now }
{
    let Some((_major, count, more)) = split_head(bytes) else {
        unreachable!()
    };
    let (payload, rest) = more.split_at(count as usize);
    let Some((_zero, form)) = payload.split_first() else {
        unreachable!()
    };
    let Ok(cid) = Cid::try_from(form) else {
        unreachable!()
    };
    (cid, rest)
}

/// Returns the bytes after what a head announces: a string's payload, else nothing.
#[inline(always)]
fn after_string(major: u8, argument: u64, more: &[u8]) -> &[u8]
    requires { IsTrue (is_string major) → argument ≤ length more.now }
    ensures { result.now ≡ (if is_string major then drop argument more.now else more.now) }
{
    if major == 2 || major == 3 {
        return more.split_at(argument as usize).1;
    }
    more
}

/// Returns the first link of items in a row, and the bytes after it. Of lists and maps only the
/// heads are looked at, because their parts follow.
pub fn next_link(items: &[u8]) -> Option<(Cid, &[u8])>
    requires { (links : List (List ℕ)) × HoldsLinks items.now links }
    ensures link { (links : List (List ℕ)) → HoldsLinks items.now links
        → MatchOption result (links ≡ [])
        (λ p. (more : List (List ℕ)) × (links ≡ cid_bytes p.0 ∷ more) × HoldsLinks p.1.now more) }
    ensures shorter { IfSome result
        (λ p. length (cid_bytes p.0) + length p.1.now < length items.now) }
{
    let mut rest = items;
    while let Some((major, argument, more)) = split_head(rest) {
        if major == 6 {
            return Some(split_link(more));
        }
        rest = after_string(major, argument, more);
    }
    None
}

/// Returns the links of items in a row. It is refused only if memory runs out.
pub fn links_of_items(alloc: Global, items: &[u8]) -> Result<Vec<Cid>, AllocError>
    requires { (links : List (List ℕ)) × HoldsLinks items.now links }
    ensures links { (links : List (List ℕ)) → HoldsLinks items.now links
        → IfOk result (λ v. map cid_bytes v.items ≡ links) }
    ensures memory { (links : List (List ℕ)) → HoldsLinks items.now links
        → IfErr result (λ _. links ≢ []) }
{
    let mut links = Vec::new(alloc);
    let mut rest = items;
    while let Some(found) = next_link(rest) {
        links.push(found.0)?;
        rest = found.1;
    }
    Ok(links)
}

/// Returns the bytes of the first item. Bytes after it are not looked at.
pub fn first_item(bytes: &[u8]) -> Result<&[u8], DecodeError<Infallible>>
    ensures { MatchResult result (λ item. IsFirstItem bytes.now item.now)
        (λ e. IsRefusal (decode_first bytes.now) e) }
{
    let mut stop = Stop::new();
    let Some(rest) = judge_item(DEFAULT_STEPS, bytes, &mut stop) else {
        return Err(stop.cause.refusal());
    };
    Ok(bytes.split_at(bytes.len() - rest.len()).0)
}

/// Returns the links of the first item of the bytes. Bytes after it are not looked at.
///
/// ```rust
/// let links = links_from_slice(alloc, link)?;
/// let Some(first) = links.first() else {
///     return Err(Fail::new("no link"));
/// };
/// agree(first.to_bytes(alloc)?.as_slice(), &link[5..])
/// ```
pub fn links_from_slice(alloc: Global, bytes: &[u8]) -> Result<Vec<Cid>, DecodeError<Infallible>>
    ensures decoded { AnswersLinks (decode_first bytes.now) result }
    ensures links { IfOk result (λ v. AreFirstLinks bytes.now (map cid_bytes v.items)) }
{
    let item = first_item(bytes)?;
    match links_of_items(alloc, item) {
        Ok(links) => Ok(links),
        Err(_) => Err(DecodeError::OutOfMemory),
    }
}
