//! Finds what a path leads to in a block.

ghost use Rattle.std.specs.Prelude.{map, Some, IfOk, IfErr, IfSome};
ghost use Rattle.ipld_tree.specs.Tree.{Tree};
ghost use Rattle.dagcbor_decode.specs.Blocks.{IsBlock};
ghost use Rattle.dagcbor_decode.specs.Verdicts.{IsRefusedFor};
ghost use Rattle.ipld_paths.specs.Paths.{segments};
ghost use Rattle.ipld_paths.specs.Parts.{EndsWith};
ghost use Rattle.ipld_paths.specs.Finding.{FindsAlong, FollowsPath, TellsItem, TellsLink, AnswersEnd};
ghost use Rattle.ipld_paths.specs.Finding.{FindsItemIn, IsFoundIn, StopsInBlock};

use crate::parts::part_at;
use crate::segments::next_segment;
use dagcbor_core::DecodeError;
use dagcbor_decode::{Kind, check_slice, kind_at};
use dagcbor_heads::SliceReader;
use dagcbor_items::{after_item, pull_link};
use ipld_tree::Cid;
use std::convert::Infallible;

/// An item of a block.
#[derive(Clone, Copy, Debug)]
pub struct Item<'b> {
    pub kind: Kind,
    /// The byte of the block at which the item begins, counted from 0.
    pub place: usize,
    /// The item's bytes. They are a block themselves.
    pub bytes: &'b [u8],
}

/// Where a walk along a path stopped in a block.
#[derive(Clone, Copy, Debug)]
pub struct Stop<'b, 'p> {
    /// The last item to which a first part of the path leads.
    pub item: Item<'b>,
    /// The rest of the path. It is empty, or its first segment leads nowhere from the item.
    pub left: &'p str,
}

/// How far a path leads in a block.
#[derive(Debug, Drop)]
pub enum Found<'b, 'p> {
    /// The whole path leads to this item.
    Item(Item<'b>),
    /// The path leads to this link, and this part of the path is left.
    Link(Cid, &'p str),
    /// The path leads to an item that is not a link. From there the first segment of this rest of
    /// the path leads nowhere.
    Nothing(&'p str),
}

/// Follows the path from the item at the front, as far as it leads. Returns the bytes from the item
/// reached onwards, and the rest of the path.
fn follow<'b, 'p>(bytes: &'b [u8], path: &'p str) -> (&'b [u8], &'p str)
    ensures led { FollowsPath bytes.now (segments path.now) result.0.now (segments result.1.now) }
    ensures within { EndsWith bytes.now result.0.now }
    ensures following { EndsWith path.now result.1.now }
{
    let mut at = bytes;
    let mut left = path;
    while let Some((segment, more)) = next_segment(left) {
        let Some(part) = part_at(at, segment) else {
            return (at, left);
        };
        at = part;
        left = more;
    }
    (at, left)
}

/// Follows the segments from the item at the front. Returns the bytes from the item reached
/// onwards, or `None` if they lead nowhere.
fn part_along<'b>(bytes: &'b [u8], segments: &[&str]) -> Option<&'b [u8]>
    ensures found { FindsAlong (λ s. s.now) bytes.now (map (λ s. s.now) segments.now) result }
    ensures within { IfSome result (λ s. EndsWith bytes.now s.now) }
{
    let mut at = bytes;
    for segment in segments {
        at = part_at(at, segment)?;
    }
    Some(at)
}

/// Returns the item at the front of these last bytes of the block.
fn item_in<'b>(block: &[u8], at: &'b [u8]) -> Option<Item<'b>>
    requires { EndsWith block.now at.now }
    ensures { TellsItem block.now at.now result }
{
    let rest = after_item(at)?;
    let first = *at.first()?;
    Some(Item {
        kind: kind_at(first),
        place: block.len() - at.len(),
        bytes: &at[..at.len() - rest.len()],
    })
}

/// Returns the link at the front. `None` if the item is not a link.
fn first_link(bytes: &[u8]) -> Option<Cid>
    ensures { TellsLink bytes.now result }
{
    let cid = pull_link(&mut SliceReader::new(bytes)).ok()?;
    // The contract of `version` tells the proof what holds of a CID.
    let _version = cid.version();
    Some(cid)
}

/// Returns how far a path led, if the walk ended at these last bytes of the block with this path
/// left.
fn found_at<'b, 'p>(block: &[u8], at: &'b [u8], left: &'p str) -> Found<'b, 'p>
    requires { EndsWith block.now at.now }
    ensures { AnswersEnd block.now at.now (segments left.now) result }
{
    if let Some((_segment, _more)) = next_segment(left) {
        return match first_link(at) {
            Some(cid) => Found::Link(cid, left),
            None => Found::Nothing(left),
        };
    }
    match item_in(block, at) {
        Some(item) => Found::Item(item),
        None => Found::Nothing(left),
    }
}

/// Returns how far the path leads in a block. `check_slice` must have accepted the block. It
/// allocates nothing.
pub fn find_judged<'b, 'p>(block: &'b [u8], path: &'p str) -> Found<'b, 'p>
    requires { (t : Tree) × IsBlock block.now t }
    ensures { IsFoundIn block.now (segments path.now) result }
{
    let (at, left) = follow(block, path);
    found_at(block, at, left)
}

/// Returns how far the path leads in the block. It validates the whole block, and allocates
/// nothing.
pub fn find_in_block<'b, 'p>(
    block: &'b [u8],
    path: &'p str,
) -> Result<Found<'b, 'p>, DecodeError<Infallible>>
    ensures found { IfOk result (IsFoundIn block.now (segments path.now)) }
    ensures refused { IfErr result (λ e. IsRefusedFor block.now e) }
{
    check_slice(block)?;
    Ok(find_judged(block, path))
}

/// Returns the item of the block to which the path leads, or `None` if it leads to none. A link is
/// an item, and the path does not go on inside it. The whole block is validated, and nothing is
/// allocated.
///
/// ```rust
/// let Some(item) = find_slice(b"\xa1\x61a\x82\x01\x17", "a/1")? else {
///     return Err(Fail::new("nothing"));
/// };
/// agree((item.kind, item.place, item.bytes), (Kind::Integer, 5, b"\x17"))
/// ```
pub fn find_slice<'b>(
    block: &'b [u8],
    path: &str,
) -> Result<Option<Item<'b>>, DecodeError<Infallible>>
    ensures found { IfOk result (FindsItemIn block.now (segments path.now)) }
    ensures refused { IfErr result (λ e. IsRefusedFor block.now e) }
{
    check_slice(block)?;
    let (at, left) = follow(block, path);
    match next_segment(left) {
        Some(_) => Ok(None),
        None => Ok(item_in(block, at)),
    }
}

/// Returns the item of the block to which the segments lead, or `None` if they lead to none. Each
/// segment is taken whole. In a map it is a key, which may have slashes or be empty; in a list it
/// is an index. The whole block is validated, and nothing is allocated.
///
/// ```rust
/// let Some(item) = find_segments(b"\xa1\x63a/b\x82\x01\x17", &["a/b", "1"])? else {
///     return Err(Fail::new("nothing"));
/// };
/// agree((item.kind, item.place, item.bytes), (Kind::Integer, 7, b"\x17"))
/// ```
pub fn find_segments<'b>(
    block: &'b [u8],
    segments: &[&str],
) -> Result<Option<Item<'b>>, DecodeError<Infallible>>
    ensures found { IfOk result (FindsItemIn block.now (map (λ s. s.now) segments.now)) }
    ensures refused { IfErr result (λ e. IsRefusedFor block.now e) }
{
    check_slice(block)?;
    match part_along(block, segments) {
        Some(at) => Ok(item_in(block, at)),
        None => Ok(None),
    }
}

/// Follows the path in the block as far as it leads. Returns the last item reached, and the rest of
/// the path: if the item is a link, the path may go on in another block. The whole block is
/// validated, and nothing is allocated.
pub fn follow_slice<'b, 'p>(
    block: &'b [u8],
    path: &'p str,
) -> Result<Stop<'b, 'p>, DecodeError<Infallible>>
    ensures stops { IfOk result (StopsInBlock block.now path.now) }
    ensures refused { IfErr result (λ e. IsRefusedFor block.now e) }
{
    check_slice(block)?;
    let (at, left) = follow(block, path);
    let item = item_in(block, at).unwrap();
    Ok(Stop { item, left })
}
