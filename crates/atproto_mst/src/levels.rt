//! A walk down a tree, level by level: the entries above a layer, and links to the subtrees between
//! them.

ghost use Rattle.std.specs.Prelude.{◌≡◌, ◌⊎◌, ◌↔◌, [], ◌∷◌, ◌++◌, List, map, IsTrue};
ghost use Rattle.std.specs.Prelude.{MatchResult, IfOk, OnOk, IfErr};
ghost use Rattle.ipld_tree.specs.Cid.{CidParts};
ghost use Rattle.ipld_links.specs.Reaching.{stored_in};
ghost use Rattle.ipld_links.specs.Sets.{Among, members};
ghost use Rattle.atproto_mst.specs.Entries.{entry_of, entries};
ghost use Rattle.atproto_mst.specs.Nodes.{node_told, row_told, key_of_row};
ghost use Rattle.atproto_mst.specs.Levels.{LevelItem, an_entry, a_link, link_items, row_items};
ghost use Rattle.atproto_mst.specs.Levels.{node_items, held_items, level_items, link_names};
ghost use Rattle.atproto_mst.specs.Levels.{OpensItems, OpensIf, IsOfShape, LevelLinksRefused};
ghost use Rattle.atproto_mst.specs.declared.error.MstError.TheVariants.{OutOfMemory};

use crate::entries::{LONGEST_KEY, MstEntry};
use crate::error::MstError;
use crate::stored::node_at;
use ipld_links::CidSet;
use ipld_tree::Cid;
use std::alloc::{AllocError, Global};
use std::collections::BTreeMap;
use types_repository::{Entry as Row, Node};

/// An entry, and the subtree between its key and the next of the level.
#[derive(Drop)]
pub(crate) struct LevelEntry {
    pub entry: MstEntry,
    pub after: Option<Cid>,
}

/// The entries of a tree above a layer, and links to the subtrees between them.
#[derive(Drop)]
pub(crate) struct Level {
    /// The subtree before the first key.
    pub left: Option<Cid>,
    pub entries: Vec<LevelEntry>,
    /// The CIDs of the nodes opened on the way to this level.
    pub opened: CidSet,
}

/// Returns whether the error concerns keys or the shape of a tree.
pub(crate) fn is_of_shape(error: &MstError) -> bool
    ensures { IsTrue result ↔ IsOfShape error.now }
{
    match error {
        MstError::OutOfMemory => false,
        MstError::MissingNode(_) => false,
        MstError::OtherBytes(_) => false,
        MstError::NoNode(_) => false,
        _ => true,
    }
}

/// Returns the level above a whole tree: a link to its root.
pub(crate) fn whole_level(alloc: Global, root: &Cid) -> Level
    ensures { level_items result ≡ a_link root.now ∷ [] }
{
    Level {
        left: Some(*root),
        entries: Vec::new(alloc),
        opened: CidSet::new(alloc),
    }
}

/// Returns the CIDs of the level's links, in their order.
pub(crate) fn link_names(alloc: Global, level: &Level) -> Result<Vec<Cid>, AllocError>
    ensures { IfOk result (λ v. v.items ≡ link_names (level_items level.now)) }
{
    let mut names = Vec::new(alloc);
    push_link(&level.left, &mut names)?;
    for held in &level.entries {
        push_link(&held.after, &mut names)?;
    }
    Ok(names)
}

/// Appends the link's CID, if there is a link.
fn push_link(link: &Option<Cid>, names: &mut Vec<Cid>) -> Result<(), AllocError>
    ensures { OnOk result (names.new.items ≡ names.old.items ++ link_names (link_items link.now)) }
{
    if let Some(name) = link {
        names.reserve(1)?;
        names.push_reserved(*name);
    }
    Ok(())
}

/// Returns the CIDs that are in both lists.
pub(crate) fn common_names(
    alloc: Global,
    names: &[Cid],
    others: &[Cid],
) -> Result<CidSet, AllocError>
    ensures { IfOk result (λ s. (q : CidParts) → Among q (members s)
        ↔ (Among q names.now × Among q others.now)) }
{
    let set = set_of(alloc, names)?;
    let mut common = CidSet::new(alloc);
    for name in others {
        if set.contains(name) {
            common.add(*name)?;
        }
    }
    Ok(common)
}

/// Collects the CIDs in a set.
fn set_of(alloc: Global, names: &[Cid]) -> Result<CidSet, AllocError>
    ensures { IfOk result (λ s. (q : CidParts) → Among q (members s) ↔ Among q names.now) }
{
    let mut set = CidSet::new(alloc);
    for name in names {
        set.add(*name)?;
    }
    Ok(set)
}

/// Returns the level below if `asked`, and otherwise this level. Dropped links are left out; each
/// other link is replaced by what its node has.
pub(crate) fn open_if(
    alloc: Global,
    blocks: &BTreeMap<Cid, Vec<u8>>,
    asked: bool,
    dropped: &CidSet,
    level: Level,
) -> Result<Level, MstError>
    ensures { MatchResult result
        (λ below. OpensIf (stored_in blocks.now) (members dropped.now) asked (level_items level)
        (level_items below))
        (LevelLinksRefused (stored_in blocks.now) (link_names (level_items level))) }
{
    if asked {
        open_level(alloc, blocks, dropped, level)
    } else {
        Ok(level)
    }
}

/// Returns the level below.
fn open_level(
    alloc: Global,
    blocks: &BTreeMap<Cid, Vec<u8>>,
    dropped: &CidSet,
    level: Level,
) -> Result<Level, MstError>
    ensures { MatchResult result
        (λ below. OpensItems (stored_in blocks.now) (members dropped.now) (level_items level)
        (level_items below))
        (LevelLinksRefused (stored_in blocks.now) (link_names (level_items level))) }
{
    let Level {
        left,
        entries,
        mut opened,
    } = level;
    let node = node_below(alloc, blocks, dropped, &left, &mut opened)?;
    let mut below = Vec::new(alloc);
    push_rows(alloc, &node, &mut below)?;
    for held in entries {
        open_entry(alloc, blocks, dropped, held, &mut opened, &mut below)?;
    }
    Ok(Level {
        left: node.l,
        entries: below,
        opened,
    })
}

/// Appends the entry, and what its link opens to in the level below.
fn open_entry(
    alloc: Global,
    blocks: &BTreeMap<Cid, Vec<u8>>,
    dropped: &CidSet,
    held: LevelEntry,
    opened: &mut CidSet,
    below: &mut Vec<LevelEntry>,
) -> Result<(), MstError>
    ensures { MatchResult result
        (λ _. (more : List LevelItem) × OpensItems (stored_in blocks.now) (members dropped.now)
        (held_items (held ∷ [])) more
        × (held_items below.new.items ≡ held_items below.old.items ++ more))
        (LevelLinksRefused (stored_in blocks.now) (link_names (held_items (held ∷ [])))) }
{
    let LevelEntry { entry, after } = held;
    let node = node_below(alloc, blocks, dropped, &after, opened)?;
    push_entry(entry, node.l, below)?;
    push_rows(alloc, &node, below)
}

/// Returns the node under the link, or an empty one if there is no link or it is dropped. A node
/// that was opened before is refused.
fn node_below(
    alloc: Global,
    blocks: &BTreeMap<Cid, Vec<u8>>,
    dropped: &CidSet,
    link: &Option<Cid>,
    opened: &mut CidSet,
) -> Result<Node, MstError>
    ensures { MatchResult result
        (λ node. OpensItems (stored_in blocks.now) (members dropped.now) (link_items link.now)
        (node_items (node_told node)))
        (LevelLinksRefused (stored_in blocks.now) (link_names (link_items link.now))) }
{
    let Some(name) = link else {
        return Ok(no_node(alloc));
    };
    if dropped.contains(name) {
        return Ok(no_node(alloc));
    }
    add_opened(name, opened)?;
    node_at(alloc, blocks, name)
}

/// Adds the CID to the set, and refuses one that is there already: no tree has a node twice.
fn add_opened(name: &Cid, opened: &mut CidSet) -> Result<(), MstError>
    ensures { IfErr result (λ e. (e ≡ OutOfMemory) ⊎ IsOfShape e) }
{
    if opened.contains(name) {
        return Err(MstError::OtherTree);
    }
    opened.add(*name)?;
    Ok(())
}

/// Returns a node without entries and links.
fn no_node(alloc: Global) -> Node
    ensures { node_items (node_told result) ≡ [] }
{
    Node {
        l: None,
        e: Vec::new(alloc),
    }
}

/// Appends the entries of a node, and the links after them.
fn push_rows(alloc: Global, node: &Node, opened: &mut Vec<LevelEntry>) -> Result<(), MstError>
    ensures pushed { OnOk result (held_items opened.new.items
        ≡ held_items opened.old.items ++ row_items [] (node_told node.now).rows) }
    ensures refused { IfErr result (λ e. (e ≡ OutOfMemory) ⊎ IsOfShape e) }
{
    let mut key = Vec::new(alloc);
    for row in &node.e {
        push_row(alloc, row, &mut key, opened)?;
    }
    Ok(())
}

/// Appends the entry of a row and the link after it. Turns `key`, the key of the row before, into
/// that of this row.
fn push_row(
    alloc: Global,
    row: &Row,
    key: &mut Vec<u8>,
    opened: &mut Vec<LevelEntry>,
) -> Result<(), MstError>
    ensures key { OnOk result (key.new.items ≡ key_of_row key.old.items (row_told row.now)) }
    ensures pushed { OnOk result (held_items opened.new.items ≡ held_items opened.old.items
        ++ (an_entry (key.new.items, row.now.v) ∷ link_items row.now.t)) }
    ensures refused { IfErr result (λ e. (e ≡ OutOfMemory) ⊎ IsOfShape e) }
{
    if row.p > key.len() as u64 {
        return Err(MstError::KeyFront);
    }
    let length = row.k.0.len().saturating_add(row.p as usize);
    if length < 1 || length > LONGEST_KEY {
        return Err(MstError::KeyLength);
    }
    key.truncate(row.p as usize);
    key.extend_from_slice(&row.k.0)?;
    let key = key.to_vec(alloc)?;
    let value = row.v;
    push_entry(MstEntry { key, value }, row.t, opened)
}

/// Appends an entry and the link after it. Refuses a key that is not greater than the last one.
fn push_entry(
    entry: MstEntry,
    after: Option<Cid>,
    opened: &mut Vec<LevelEntry>,
) -> Result<(), MstError>
    ensures pushed { OnOk result (held_items opened.new.items ≡ held_items opened.old.items
        ++ (an_entry (entry_of entry) ∷ link_items after)) }
    ensures refused { IfErr result (λ e. (e ≡ OutOfMemory) ⊎ IsOfShape e) }
{
    if let Some(last) = opened.last() {
        if !last.entry.key.as_slice().cmp(entry.key.as_slice()).is_lt() {
            return Err(MstError::KeyOrder);
        }
    }
    opened.reserve(1)?;
    opened.push_reserved(LevelEntry { entry, after });
    Ok(())
}

/// Returns the entries of a level, which must have no links.
pub(crate) fn only_entries(alloc: Global, level: Level) -> Result<Vec<MstEntry>, MstError>
    ensures all { IfOk result (λ v. level_items level ≡ map an_entry (entries v.items)) }
    ensures refused { IfErr result (λ e. (e ≡ OutOfMemory) ⊎ IsOfShape e) }
{
    let Level { left, entries, .. } = level;
    if left.is_some() {
        return Err(MstError::OtherTree);
    }
    let mut all = Vec::new(alloc);
    for held in entries {
        if held.after.is_some() {
            return Err(MstError::OtherTree);
        }
        all.reserve(1)?;
        all.push_reserved(held.entry);
    }
    Ok(all)
}
