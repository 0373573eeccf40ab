//! One step of a path: the part of an item to which a segment leads.

ghost use Rattle.std.specs.Prelude.{◌≡◌, ◌<◌, List, ℕ, MatchOption, IfSome};
ghost use Rattle.ipld_tree.specs.Tree.{text};
ghost use Rattle.ipld_tree.specs.Spelling.{IsFront};
ghost use Rattle.ipld_paths.specs.Parts.{EndsWith, FindsItem, FindsValue, FindsPart};

use crate::segments::index_of;
use dagcbor_core::split_head;
use dagcbor_items::{after_item, after_items};
use ipld_tree::comes_before;

/// Returns the bytes from the item with this index onwards. `count` items begin here. `None` if the
/// index is not below `count`.
fn item_at(bytes: &[u8], count: u64, index: u64) -> Option<&[u8]>
    ensures found { FindsItem (λ s. s.now) bytes.now count index result }
    ensures within { IfSome result (λ s. EndsWith bytes.now s.now) }
{
    if index >= count {
        return None;
    }
    after_items(bytes, index)
}

/// Returns the text key at the front, and the bytes after it.
fn split_key(bytes: &[u8]) -> Option<(&[u8], &[u8])>
    ensures key { (key : List ℕ) (rest : List ℕ) → IsFront bytes.now (text key) rest →
        MatchOption result ⊥ (λ p. (p.0.now ≡ key) × (p.1.now ≡ rest)) }
    ensures within { IfSome result (λ p. EndsWith bytes.now p.1.now) }
{
    let (_major, count, following) = split_head(bytes)?;
    if (following.len() as u64) < count {
        return None;
    }
    Some(following.split_at(count as usize))
}

/// Returns the bytes from the value of the key onwards. `count` entries begin here, in the order of
/// their keys. `None` if no entry has the key.
fn value_of<'b>(bytes: &'b [u8], count: u64, key: &[u8]) -> Option<&'b [u8]>
    ensures found { FindsValue (λ s. s.now) bytes.now count key.now result }
    ensures within { IfSome result (λ s. EndsWith bytes.now s.now) }
{
    let mut rest = bytes;
    let mut more = count;
    while more > 0 {
        let (next, value) = split_key(rest)?;
        if next == key {
            return Some(value);
        }
        if comes_before(key, next) {
            return None;
        }
        rest = after_item(value)?;
        more -= 1;
    }
    None
}

/// Returns the bytes from the part to which the segment leads, of the item at the front, onwards.
/// `None` if it leads nowhere.
pub(crate) fn part_at<'b>(bytes: &'b [u8], segment: &str) -> Option<&'b [u8]>
    ensures found { FindsPart (λ s. s.now) bytes.now segment.now result }
    ensures within { IfSome result (λ s. EndsWith bytes.now s.now) }
{
    let (major, count, following) = split_head(bytes)?;
    match major {
        4 => item_at(following, count, index_of(segment)?),
        5 => value_of(following, count, segment.as_bytes()),
        _ => None,
    }
}
