//! A tree as a value.

ghost use Rattle.std.specs.Prelude.{◌≡◌, ◌-◌, ◌^◌, min, ◌↔◌, map, string_cmp, IsTrue, IfOk, IsOk};
ghost use Rattle.std.specs.List.Sorted.{IsStrictlySortedBy};
ghost use Rattle.std.specs.Map.{keys_of};
ghost use Rattle.ipld_tree.specs.Cid.{cid_bytes};
ghost use Rattle.ipld_tree.specs.Tree.{any_need, items_need, items_of, IsBare};
ghost use Rattle.ipld_tree.specs.Ipld.{tree_of, trees_of, pairs_of};

use crate::cid::Cid;
use std::alloc::{AllocError, Global};
use std::collections::BTreeMap;

/// Any DAG-CBOR data, without floats. An integer outside -2^64 to 2^64 - 1 has no spelling.
#[derive(Debug, Drop)]
pub enum Ipld {
    Null,
    Bool(bool),
    Integer(i128),
    String(String),
    Bytes(Vec<u8>),
    List(Vec<Ipld>),
    Map(BTreeMap<String, Ipld>),
    Link(Cid),
}

impl Ipld {
    /// Returns the steps that an untyped read of the tree takes, or `u64::MAX` if there are more.
    #[cycle(depth_need)]
    pub fn depth_need(&self) -> u64
        ensures { result ≡ min (any_need (tree_of self.now)) (2 ^ 64 - 1) }
    {
        match self {
            Ipld::List(items) => need_of_items(items).saturating_add(2),
            Ipld::Map(entries) => need_of_values(entries).saturating_add(2),
            _ => 1,
        }
    }

    /// Returns an equal value. If it runs out of memory, this value stays as it was.
    #[cycle(try_clone)]
    pub fn try_clone(&self, alloc: Global) -> Result<Ipld, AllocError>
        ensures same { IfOk result (λ copy. tree_of copy ≡ tree_of self.now) }
        ensures bare { IsBare (tree_of self.now) → IsOk result }
    {
        match self {
            Ipld::Null => Ok(Ipld::Null),
            Ipld::Bool(b) => Ok(Ipld::Bool(*b)),
            Ipld::Integer(n) => Ok(Ipld::Integer(*n)),
            Ipld::String(text) => Ok(Ipld::String(text.clone()?)),
            Ipld::Bytes(bytes) => Ok(Ipld::Bytes(bytes.clone()?)),
            Ipld::List(items) => Ok(Ipld::List(clone_items(alloc, items)?)),
            Ipld::Map(entries) => Ok(Ipld::Map(clone_entries(alloc, entries)?)),
            Ipld::Link(cid) => Ok(Ipld::Link(*cid)),
        }
    }
}

/// Returns the greatest need of the items, in steps, or `u64::MAX` if it is more.
#[cycle(depth_need)]
fn need_of_items(items: &[Ipld]) -> u64
    ensures { result ≡ min (items_need (items_of (trees_of items.now))) (2 ^ 64 - 1) }
{
    let mut greatest = 0;
    for item in items {
        greatest = greatest.max(item.depth_need());
    }
    greatest
}

/// Returns the greatest need of the values, in steps, or `u64::MAX` if it is more.
#[cycle(depth_need)]
fn need_of_values(entries: &BTreeMap<String, Ipld>) -> u64
    ensures { let values = map (λ e. e.1) entries.now.entries in
        result ≡ min (items_need (items_of (trees_of values))) (2 ^ 64 - 1) }
{
    let mut greatest = 0;
    for value in entries.values() {
        greatest = greatest.max(value.depth_need());
    }
    greatest
}

#[cycle(try_clone)]
fn clone_items(alloc: Global, items: &[Ipld]) -> Result<Vec<Ipld>, AllocError>
    ensures { IfOk result (λ copies. trees_of copies.items ≡ trees_of items.now) }
{
    let mut copies = Vec::new(alloc);
    for item in items {
        copies.push(item.try_clone(alloc)?)?;
    }
    Ok(copies)
}

#[cycle(try_clone)]
fn clone_entries(
    alloc: Global,
    entries: &BTreeMap<String, Ipld>,
) -> Result<BTreeMap<String, Ipld>, AllocError>
    ensures { IfOk result (λ copies. pairs_of copies.entries ≡ pairs_of entries.now.entries) }
{
    let mut copies = BTreeMap::new(alloc);
    for (key, value) in entries.iter() {
        let name = key.clone()?;
        drop(copies.insert(name, value.try_clone(alloc)?)?);
    }
    Ok(copies)
}

impl PartialEq for Ipld {
    ghost use Rattle.std.specs.Ordering.{on};
    ghost use Rattle.ipld_tree.specs.Same.{same_tree, same_tree_laws};

    ghost eq = { on tree_of same_tree };

    ghost laws = { same_tree_laws };

    fn eq(&self, other: &Ipld) -> bool {
        equal(self, other)
    }
}

/// Returns whether the two have the same tree.
#[cycle(equal)]
fn equal(left: &Ipld, right: &Ipld) -> bool
    ensures { IsTrue result ↔ (tree_of left.now ≡ tree_of right.now) }
{
    match (left, right) {
        (Ipld::Null, Ipld::Null) => true,
        (Ipld::Bool(a), Ipld::Bool(b)) => *a == *b,
        (Ipld::Integer(a), Ipld::Integer(b)) => *a == *b,
        (Ipld::String(a), Ipld::String(b)) => a.as_str() == b.as_str(),
        (Ipld::Bytes(a), Ipld::Bytes(b)) => a.as_slice() == b.as_slice(),
        (Ipld::List(a), Ipld::List(b)) => equal_items(a, b),
        (Ipld::Map(a), Ipld::Map(b)) => equal_entries(a, b),
        (Ipld::Link(a), Ipld::Link(b)) => equal_links(a, b),
        _ => false,
    }
}

#[tactic(auto, using(crate::proofs::Cids::is_same))]
fn equal_links(left: &Cid, right: &Cid) -> bool
    ensures { IsTrue result ↔ (cid_bytes left.now ≡ cid_bytes right.now) }
{
    // By the contract of `version`, the proof knows that each `Cid` is valid.
    let _versions = (left.version(), right.version());
    left == right
}

#[cycle(equal)]
fn equal_items(left: &[Ipld], right: &[Ipld]) -> bool
    ensures { IsTrue result ↔ (trees_of left.now ≡ trees_of right.now) }
{
    if left.len() != right.len() {
        return false;
    }
    for i in 0..left.len() {
        if !equal(&left[i], &right[i]) {
            return false;
        }
    }
    true
}

#[cycle(equal)]
fn equal_entries(left: &BTreeMap<String, Ipld>, right: &BTreeMap<String, Ipld>) -> bool
    ensures same { IsTrue result ↔ (pairs_of left.now.entries ≡ pairs_of right.now.entries) }
    ensures left_sorted { IsStrictlySortedBy string_cmp (keys_of left.now.entries) }
    ensures right_sorted { IsStrictlySortedBy string_cmp (keys_of right.now.entries) }
{
    let mut others = right.iter();
    for (key, value) in left.iter() {
        match others.next() {
            None => return false,
            Some((other_key, other)) => {
                if key.as_str() != other_key.as_str() || !equal(value, other) {
                    return false;
                }
            }
        }
    }
    others.next().is_none()
}
