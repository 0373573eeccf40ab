//! The links of validated blocks: nothing is validated again.

ghost use Rattle.std.specs.Prelude.{◌≡◌, ◌+◌, ◌<◌, List, ℕ, [], ◌∷◌, length, IfSome, IfOk, MatchOption};
ghost use Rattle.ipld_tree.specs.Cid.{cid_bytes};
ghost use Rattle.dagcbor_items.specs.Walks.{forms};
ghost use Rattle.ipld_links.specs.Blocks.{HasLinks, IsBlockOf};
ghost use Rattle.ipld_links.specs.Rows.{HoldsFieldLinks, HoldsLinksAs};

use crate::name::DAG_PB;
use ipld_tree::Cid;
use std::alloc::{AllocError, Global};

/// Returns the first link among the fields of a node, and the bytes after it.
fn next_field_link(fields: &[u8]) -> Option<(Cid, &[u8])>
    requires { (links : List (List ℕ)) × HoldsFieldLinks fields.now links }
    ensures link { (links : List (List ℕ)) → HoldsFieldLinks fields.now links
        → MatchOption result (links ≡ [])
        (λ p. (more : List (List ℕ)) × (links ≡ cid_bytes p.0 ∷ more) × HoldsFieldLinks p.1.now more) }
    ensures shorter { IfSome result
        (λ p. length (cid_bytes p.0) + length p.1.now < length fields.now) }
{
    match dag_pb::next_link(fields) {
        Some((link, following)) => Some((link.hash, following)),
        None => None,
    }
}

/// Returns the first link in the parts of a block of the codec, and the bytes after it.
pub(crate) fn next_link(codec: u64, row: &[u8]) -> Option<(Cid, &[u8])>
    requires { (links : List (List ℕ)) × HoldsLinksAs codec row.now links }
    ensures link { (links : List (List ℕ)) → HoldsLinksAs codec row.now links
        → MatchOption result (links ≡ [])
        (λ p. (more : List (List ℕ)) × (links ≡ cid_bytes p.0 ∷ more) × HoldsLinksAs codec p.1.now more) }
    ensures shorter { IfSome result
        (λ p. length (cid_bytes p.0) + length p.1.now < length row.now) }
{
    if codec == DAG_PB {
        next_field_link(row)
    } else {
        dagcbor_decode::next_link(row)
    }
}

/// Returns the links of a block, in its order. It is refused only if memory runs out.
pub fn links_of_block(alloc: Global, codec: u64, block: &[u8]) -> Result<Vec<Cid>, AllocError>
    requires { IsBlockOf codec block.now }
    ensures { IfOk result (λ v. HasLinks codec block.now (forms v.items)) }
{
    let mut links = Vec::new(alloc);
    let mut rest = block;
    while let Some(found) = next_link(codec, rest) {
        links.push(found.0)?;
        rest = found.1;
    }
    Ok(links)
}
