//! Reads the front of a node's data model, up to its links.

ghost use Rattle.std.specs.Prelude.{ℕ, List, [], Option, codes, option_map, MatchOption};
ghost use Rattle.ipld_tree.specs.Tree.{bytes};
ghost use Rattle.dag_pb_model.specs.Reading.{IsEntry, IsLinksFront, AreNodeEnds, IsNodeFront};

use crate::read::{after_front, split_bytes};
use dagcbor_core::split_head;

/// Returns the data of a node, and the bytes after its entry.
fn split_data(block: &[u8]) -> Option<(&[u8], &[u8])>
    ensures { MatchOption result
        (¬ ((s : List ℕ) × (rest : List ℕ) × IsEntry block.now (codes "Data") (bytes s) rest))
        (λ p. IsEntry block.now (codes "Data") (bytes p.0.now) p.1.now) }
{
    let following = after_front(block, b"\x64Data")?;
    let (inner, rest) = split_bytes(following)?;
    Some((inner, rest))
}

/// Returns the number of links of a node, and their bytes.
fn split_links(block: &[u8]) -> Option<(u64, &[u8])>
    ensures { MatchOption result ((count : ℕ) (rest : List ℕ) → ¬ IsLinksFront block.now count rest)
        (λ p. IsLinksFront block.now p.0 p.1.now) }
{
    let following = after_front(block, b"\x65Links")?;
    let (major, count, rest) = split_head(following)?;
    if major != 4 {
        return None;
    }
    Some((count, rest))
}

/// Returns the data of a node of two entries, the number of its links, and their bytes.
fn open_both(block: &[u8]) -> Option<(Option<&[u8]>, u64, &[u8])>
    ensures { MatchOption result
        ((inner : Option (List ℕ)) (count : ℕ) (rest : List ℕ)
        → ¬ AreNodeEnds 2 block.now inner count rest)
        (λ p. AreNodeEnds 2 block.now (option_map (λ b. b.now) p.0) p.1 p.2.now) }
{
    let (inner, following) = split_data(block)?;
    let (count, links) = split_links(following)?;
    Some((Some(inner), count, links))
}

/// Returns no data, the number of links of a node of one entry, and their bytes.
fn open_one(block: &[u8]) -> Option<(Option<&[u8]>, u64, &[u8])>
    ensures { MatchOption result
        ((inner : Option (List ℕ)) (count : ℕ) (rest : List ℕ)
        → ¬ AreNodeEnds 1 block.now inner count rest)
        (λ p. AreNodeEnds 1 block.now (option_map (λ b. b.now) p.0) p.1 p.2.now) }
{
    let (count, links) = split_links(block)?;
    Some((None, count, links))
}

/// Returns the data of a node of this many entries, the number of its links, and their bytes.
fn open_entries(entries: u64, block: &[u8]) -> Option<(Option<&[u8]>, u64, &[u8])>
    ensures { MatchOption result
        ((inner : Option (List ℕ)) (count : ℕ) (rest : List ℕ)
        → ¬ AreNodeEnds entries block.now inner count rest)
        (λ p. AreNodeEnds entries block.now (option_map (λ b. b.now) p.0) p.1 p.2.now) }
{
    match entries {
        1 => open_one(block),
        2 => open_both(block),
        _ => None,
    }
}

/// Returns the data of a node, the number of its links, and their bytes.
pub(crate) fn open_node(block: &[u8]) -> Option<(Option<&[u8]>, u64, &[u8])>
    ensures { MatchOption result
        ((inner : Option (List ℕ)) (count : ℕ) (rest : List ℕ)
        → ¬ IsNodeFront block.now inner count rest)
        (λ p. IsNodeFront block.now (option_map (λ b. b.now) p.0) p.1 p.2.now) }
{
    let (major, entries, following) = split_head(block)?;
    if major != 5 {
        return None;
    }
    open_entries(entries, following)
}
