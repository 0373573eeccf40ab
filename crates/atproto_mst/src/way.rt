//! The nodes on the path to a record.

ghost use Rattle.std.specs.Prelude.{◌≡◌, ◌⊎◌, List, IfOk, IfErr};
ghost use Rattle.ipld_links.specs.Reaching.{stored_in};
ghost use Rattle.atproto_mst.specs.Keys.{Entry};
ghost use Rattle.atproto_mst.specs.Entries.{IsMst};
ghost use Rattle.atproto_mst.specs.Walks.{most_layers};
ghost use Rattle.atproto_mst.specs.Stops.{IsStoredNamed};
ghost use Rattle.atproto_mst.specs.Finding.{FindStops, IsWay};
ghost use Rattle.atproto_mst.specs.declared.error.MstError.TheVariants.{OutOfMemory};

use crate::error::MstError;
use crate::find::{Sought, seek};
use crate::read::MOST_LAYERS;
use crate::stored::node_at;
use ipld_tree::Cid;
use std::alloc::Global;
use std::collections::BTreeMap;

/// Returns the CIDs of the nodes that `find_record` reads in the tree with this root, from the root
/// down. `find_record` answers the same over these nodes alone, even if the tree lacks the key.
pub fn record_way(
    alloc: Global,
    blocks: &BTreeMap<Cid, Vec<u8>>,
    root: &Cid,
    key: &[u8],
) -> Result<Vec<Cid>, MstError>
    ensures way { IfOk result
        (λ v. IsWay most_layers (stored_in blocks.now) key.now root.now v.items) }
    ensures refused { IfErr result
        (λ e. ((e ≡ OutOfMemory) × IsStoredNamed (stored_in blocks.now) root.now)
        ⊎ FindStops most_layers (stored_in blocks.now) key.now root.now e) }
    ensures whole { (es : List Entry) → IsMst (stored_in blocks.now) root.now es →
        IfErr result (λ e. e ≡ OutOfMemory) }
{
    let mut names = Vec::new(alloc);
    let mut name = *root;
    for _layer in 0..MOST_LAYERS {
        let node = node_at(alloc, blocks, &name)?;
        let sought = seek(alloc, &node, key)?;
        names.reserve(1)?;
        names.push_reserved(name);
        match &sought {
            Sought::Record(_value) => return Ok(names),
            Sought::Below(link) => match link {
                Some(next) => name = *next,
                None => return Ok(names),
            },
            Sought::KeyFront => return Err(MstError::KeyFront),
        }
    }
    Err(MstError::TooDeep(name))
}
