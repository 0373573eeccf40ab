//! Finding one record of a stored tree.

ghost use Rattle.std.specs.Prelude.{◌≡◌, ◌⊎◌, List, MatchResult, IfOk, IfErr};
ghost use Rattle.ipld_links.specs.Reaching.{stored_in};
ghost use Rattle.atproto_mst.specs.Keys.{Entry};
ghost use Rattle.atproto_mst.specs.Entries.{IsMst};
ghost use Rattle.atproto_mst.specs.Nodes.{node_told};
ghost use Rattle.atproto_mst.specs.Walks.{most_layers};
ghost use Rattle.atproto_mst.specs.Stops.{IsStoredNamed};
ghost use Rattle.atproto_mst.specs.Finding.{lookup, seek_in, FindsRecord, FindStops};
ghost use Rattle.atproto_mst.specs.declared.error.MstError.TheVariants.{OutOfMemory};

use crate::error::MstError;
use crate::read::MOST_LAYERS;
use crate::stored::node_at;
use ipld_tree::Cid;
use std::alloc::{AllocError, Global};
use std::cmp::Ordering;
use std::collections::BTreeMap;
use types_repository::Node;

/// What a node says about a key.
#[derive(Debug, Clone, Copy, Drop)]
pub(crate) enum Sought {
    /// The node has the key, and this is its record.
    Record(Cid),
    /// The node lacks the key, which could only be in this subtree, if there is one.
    Below(Option<Cid>),
    /// An entry before it claims to share more bytes with the key before it than that key has.
    KeyFront,
}

/// Looks up the key in one node.
pub(crate) fn seek(alloc: Global, node: &Node, key: &[u8]) -> Result<Sought, AllocError>
    ensures { IfOk result (λ s. s ≡ seek_in key.now (node_told node.now)) }
{
    let mut before = node.l;
    let mut next = Vec::new(alloc);
    for row in &node.e {
        if row.p > next.len() as u64 {
            return Ok(Sought::KeyFront);
        }
        next.truncate(row.p as usize);
        next.extend_from_slice(&row.k.0)?;
        match key.cmp(next.as_slice()) {
            Ordering::Less => return Ok(Sought::Below(before)),
            Ordering::Equal => return Ok(Sought::Record(row.v)),
            Ordering::Greater => before = row.t,
        }
    }
    Ok(Sought::Below(before))
}

/// Returns the record of the key in the stored tree with this root, or `None` if the tree lacks the
/// key. Only the nodes on the path from the root to the key are read, so no others need to be
/// stored.
pub fn find_record(
    alloc: Global,
    blocks: &BTreeMap<Cid, Vec<u8>>,
    root: &Cid,
    key: &[u8],
) -> Result<Option<Cid>, MstError>
    ensures found { IfOk result (FindsRecord most_layers (stored_in blocks.now) key.now root.now) }
    ensures refused { IfErr result
        (λ e. ((e ≡ OutOfMemory) × IsStoredNamed (stored_in blocks.now) root.now)
        ⊎ FindStops most_layers (stored_in blocks.now) key.now root.now e) }
    ensures whole { (es : List Entry) → IsMst (stored_in blocks.now) root.now es →
        MatchResult result (λ found. found ≡ lookup key.now es) (λ e. e ≡ OutOfMemory) }
{
    let mut name = *root;
    for _layer in 0..MOST_LAYERS {
        let node = node_at(alloc, blocks, &name)?;
        let sought = seek(alloc, &node, key)?;
        match &sought {
            Sought::Record(value) => return Ok(Some(*value)),
            Sought::Below(link) => match link {
                Some(next) => name = *next,
                None => return Ok(None),
            },
            Sought::KeyFront => return Err(MstError::KeyFront),
        }
    }
    Err(MstError::TooDeep(name))
}
