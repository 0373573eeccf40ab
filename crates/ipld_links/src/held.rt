//! The names of the stored blocks.

ghost use Rattle.std.specs.Prelude.{◌≡◌, ◌↔◌, ℕ, false, None, Some, IsTrue, slice_get};
ghost use Rattle.std.specs.Prelude.{MatchOption, IfOk, OnOk};
ghost use Rattle.std.specs.Option.{unwrap_or};
ghost use Rattle.std.specs.Ordering.{nat_cmp};
ghost use Rattle.std.specs.BTreeMap.{get, is_at};
ghost use Rattle.ipld_links.specs.Held.{front, name_in_row, HoldsNone, IsHeldName, AddsName};

use crate::cid_set::CidSet;
use ipld_tree::Cid;
use std::alloc::{AllocError, Global};
use std::collections::BTreeMap;

/// A set of names, fast to look up. Most names are in a list. A small tree of numbers, which stays
/// in the cache, maps the first bytes of a digest to a place in that list. A name whose first bytes
/// are those of another is in a sorted set, so that no choice of names makes a look-up slow.
#[derive(Drop)]
pub struct HeldNames {
    names: Vec<Cid>,
    /// The place in the list of the name with these first bytes.
    places: BTreeMap<u64, usize>,
    others: CidSet,
}

impl HeldNames {
    /// Returns the empty set.
    pub fn new(alloc: Global) -> HeldNames
        ensures { HoldsNone result }
    {
        HeldNames {
            names: Vec::new(alloc),
            places: BTreeMap::new(alloc),
            others: CidSet::new(alloc),
        }
    }

    /// Returns whether the set has the name.
    pub fn contains(&self, cid: &Cid) -> bool
        ensures { IsTrue result ↔ IsHeldName cid.now self.now }
    {
        match self.named(front_of(cid)) {
            Some(name) => is_same(name, cid) || self.others.contains(cid),
            None => self.others.contains(cid),
        }
    }

    /// Adds the name. After a refusal the contents of the set are unspecified.
    pub fn add(&mut self, cid: Cid) -> Result<(), AllocError>
        ensures { OnOk result (AddsName cid self.old self.new) }
    {
        // The contract of `version` tells the proof what holds of a CID.
        let _version = cid.version();
        let end = self.names.len();
        let place = place_at(&mut self.places, front_of(&cid), end)?;
        if place == end {
            self.names.push(cid)?;
            return Ok(());
        }
        if self.has_at(place, &cid) {
            return Ok(());
        }
        self.others.add(cid)
    }

    /// Returns whether this name is at the place in the list.
    fn has_at(&self, place: usize, cid: &Cid) -> bool
        ensures { IsTrue result → slice_get self.now.names.items place ≡ Some cid.now }
    {
        match self.names.get(place) {
            Some(name) => is_same(name, cid),
            None => false,
        }
    }

    /// Returns the name in the list with these first bytes, as `front_of` reads them.
    fn named(&self, number: u64) -> Option<&Cid>
        ensures { MatchOption result
            (name_in_row self.now number ≡ None)
            (λ name. name_in_row self.now number ≡ Some name.now) }
    {
        match self.places.get(&number) {
            Some(place) => self.names.get(*place),
            None => None,
        }
    }
}

/// Returns whether both are the same name. It is faster than comparing their order.
fn is_same(first: &Cid, second: &Cid) -> bool
    ensures { IsTrue result ↔ (first.now ≡ second.now) }
{
    first.digest() == second.digest()
        && first.hash_code() == second.hash_code()
        && first.codec() == second.codec()
        && first.version() == second.version()
}

/// Returns the place under the number. If there is none, puts `end` there, and returns it.
fn place_at(places: &mut BTreeMap<u64, usize>, number: u64, end: usize) -> Result<usize, AllocError>
    ensures place { IfOk result (λ p. p ≡ unwrap_or (get nat_cmp places.old number) end) }
    ensures there { IfOk result (λ p. get nat_cmp places.new number ≡ Some p) }
    ensures others { OnOk result ((m : ℕ) → is_at (nat_cmp number) m ≡ false
        → get nat_cmp places.new m ≡ get nat_cmp places.old m) }
{
    match places.entry(number) {
        Ok(entry) => Ok(*entry.or_insert(end)),
        Err(_) => Err(AllocError),
    }
}

/// Returns the first eight bytes of the digest as a little-endian number, or 0 if it has fewer.
fn front_of(cid: &Cid) -> u64
    ensures { result ≡ front cid.now.digest }
{
    match cid.digest().split_first_chunk::<8>() {
        Some((first, _following)) => u64::from_le_bytes(*first),
        None => 0,
    }
}
