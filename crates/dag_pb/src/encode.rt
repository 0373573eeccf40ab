//! Encodes blocks of DAG-PB.

ghost use Rattle.std.specs.Prelude.{◌≡◌, ◌≢◌, [], ◌-◌, ◌≤◌, ◌^◌, min, length, option_map, map, not, MatchResult, MatchBool, IfOk};
ghost use Rattle.std.specs.Ordering.{nat_cmp, is_lt};
ghost use Rattle.std.specs.Cmp.Lexicographic.{slice_cmp};
ghost use Rattle.lent_memory.specs.Puts.{with_front};
ghost use Rattle.dag_pb.specs.Node.{IsNode};
ghost use Rattle.dag_pb.specs.Reads.{link_of, node_of};
ghost use Rattle.dag_pb.specs.Spelling.{node_spelling, AreSorted, sort_name, IsSpellable, IsNotWritten};

use crate::error::PbEncodeError;
use crate::link::PbLink;
use crate::place::{data_length, link_length, put_data, put_link};
use std::alloc::{AllocError, Global};

/// Encodes the node of these links and this data, in the one form that encoders write. Refuses
/// links that are not sorted by the bytes of their names. A link without a name counts as having
/// the empty name. Links with the same name may come in any order.
pub fn encode_node(
    alloc: Global,
    links: &[PbLink<'_>],
    data: Option<&[u8]>,
) -> Result<Vec<u8>, PbEncodeError>
    ensures written { let node = node_of links.now (option_map (λ b. b.now) «data».entry) in
        MatchResult result
        (λ block. AreSorted node.links × (block.items ≡ node_spelling node))
        (λ e. IsNotWritten e node) }
    ensures is_node { IfOk result (λ block. IsNode block.items
        (node_of links.now (option_map (λ b. b.now) «data».entry))) }
{
    if !are_sorted(links) {
        return Err(PbEncodeError::UnsortedLinks);
    }
    match node_bytes(alloc, links, data) {
        Ok(block) => Ok(block),
        Err(_) => Err(PbEncodeError::OutOfMemory),
    }
}

/// Encodes the node, without a test of the order of its links.
fn node_bytes(
    alloc: Global,
    links: &[PbLink<'_>],
    data: Option<&[u8]>,
) -> Result<Vec<u8>, AllocError>
    ensures { let node = node_of links.now (option_map (λ b. b.now) «data».entry) in
        MatchResult result
        (λ block. (block.items ≡ node_spelling node) × IsSpellable node)
        (λ _. node_spelling node ≢ []) }
{
    let count = node_length(links, data);
    let mut block = Vec::new(alloc);
    if count == 0 {
        return Ok(block);
    }
    block.resize(count, 0)?;
    fill(links, data, &mut block);
    Ok(block)
}

/// Returns the length of the node's block in bytes, at most 2^64 - 1. The sum itself cannot
/// overflow.
fn node_length(links: &[PbLink<'_>], data: Option<&[u8]>) -> usize
    ensures counted { let node = node_of links.now (option_map (λ b. b.now) «data».entry) in
        result ≡ min (length (node_spelling node)) (2 ^ 64 - 1) }
    ensures spellable { IsSpellable (node_of links.now (option_map (λ b. b.now) «data».entry)) }
{
    let inner = data_length(data) as u128;
    let mut count = 0u128;
    for link in links {
        count += link_length(link) as u128;
    }
    (count + inner).min(usize::MAX as u128) as usize
}

/// Writes the block of the node at the front of `out`.
fn fill(links: &[PbLink<'_>], data: Option<&[u8]>, out: &mut [u8])
    requires { length (node_spelling (node_of links.now (option_map (λ b. b.now) «data»)))
        ≤ length out.old }
    ensures { out.new ≡ with_front (node_spelling (node_of links.now
        (option_map (λ b. b.now) «data».entry))) out.old }
{
    let mut at = 0;
    for link in links {
        at = put_link(out, at, link);
    }
    put_data(out, at, data);
}

/// Returns whether the links are sorted by their names.
fn are_sorted(links: &[PbLink<'_>]) -> bool
    ensures { MatchBool result (AreSorted (map link_of links.now))
        (¬ AreSorted (map link_of links.now)) }
{
    links.is_sorted_by(|link, next| may_precede(link, next))
}

/// Returns whether `next` may come after `link`.
fn may_precede(link: &PbLink<'_>, next: &PbLink<'_>) -> bool
    ensures { result ≡ not (is_lt (slice_cmp nat_cmp (sort_name (link_of next.now))
        (sort_name (link_of link.now)))) }
{
    let name = link.name.unwrap_or(&[]);
    let next_name = next.name.unwrap_or(&[]);
    !next_name.cmp(name).is_lt()
}
