//! Sets of CIDs.

ghost use Rattle.std.specs.Prelude.{◌≡◌, ◌≢◌, ◌↔◌, [], ◌∷◌, IfOk, OnOk, OnErr, Some, IsTrue};
ghost use Rattle.std.specs.List.Sorted.{IsStrictlySortedBy};
ghost use Rattle.ipld_tree.specs.Cid.{cid_cmp};
ghost use Rattle.ipld_links.specs.Blocks.{IsBlockOf};
ghost use Rattle.ipld_links.specs.Sets.{Among, members, AddsCid, RemovesCid};
ghost use Rattle.ipld_links.specs.Within.{AddsUnheld, AddsAll, AddsLinks};

use crate::block::is_block_of;
use crate::held::HeldNames;
use crate::links::next_link;
use crate::name::IDENTITY;
use ipld_tree::Cid;
use std::alloc::{AllocError, Global};
use std::collections::BTreeSet;

/// A set of CIDs.
#[derive(Drop)]
pub struct CidSet {
    cids: BTreeSet<Cid>,
}

impl CidSet {
    /// Returns the empty set.
    pub fn new(alloc: Global) -> CidSet
        ensures { members result ≡ [] }
    {
        CidSet {
            cids: BTreeSet::new(alloc),
        }
    }

    /// Adds the CID. After a refusal the contents of the set are unspecified.
    pub fn add(&mut self, cid: Cid) -> Result<(), AllocError>
        ensures { OnOk result (AddsCid cid self.old self.new) }
    {
        // The contract of `version` tells the proof what holds of a CID.
        let _version = cid.version();
        self.cids.insert(cid)?;
        Ok(())
    }

    /// Returns whether the set has the CID.
    pub fn contains(&self, cid: &Cid) -> bool
        ensures { IsTrue result ↔ Among cid.now (members self.now) }
    {
        self.cids.contains(cid)
    }

    /// Adds the links of a block that are not in `held`. A link whose name holds its block itself
    /// is replaced by the links in that block.
    #[cycle(links)]
    pub fn add_links(
        &mut self,
        codec: u64,
        block: &[u8],
        held: &HeldNames,
    ) -> Result<(), AllocError>
        requires { IsBlockOf codec block.now }
        ensures { AddsLinks codec block.now held.now self.old result self.new }
    {
        let mut rest = block;
        while let Some(found) = next_link(codec, rest) {
            self.add_link(&found.0, held)?;
            rest = found.1;
        }
        Ok(())
    }

    /// Adds the links that are not in `held`. A link whose name holds its block itself is replaced
    /// by the links in that block.
    pub fn add_all(&mut self, links: &[Cid], held: &HeldNames) -> Result<(), AllocError>
        ensures added { OnOk result (AddsAll links.now held.now self.old self.new) }
        ensures memory { OnErr result (links.now ≢ []) }
    {
        for link in links {
            self.add_link(link, held)?;
        }
        Ok(())
    }

    /// Adds the link, if it is not in `held`. If its name holds a block itself, adds the links in
    /// that block instead.
    #[cycle(links)]
    fn add_link(&mut self, link: &Cid, held: &HeldNames) -> Result<(), AllocError>
        ensures { OnOk result (AddsAll (link.now ∷ []) held.now self.old self.new) }
    {
        // The contract of `version` tells the proof what holds of a CID.
        let _version = link.version();
        if link.hash_code() != IDENTITY {
            return self.add_unheld(link, held);
        }
        if !is_block_of(link.codec(), link.digest()) {
            return Ok(());
        }
        self.add_links(link.codec(), link.digest(), held)
    }

    /// Removes the CID, if the set has it.
    pub fn remove(&mut self, cid: &Cid)
        ensures { RemovesCid cid.now self.old self.new }
    {
        self.cids.remove(cid);
    }

    /// Adds the CID, if it is not in `held`.
    fn add_unheld(&mut self, cid: &Cid, held: &HeldNames) -> Result<(), AllocError>
        ensures { OnOk result (AddsUnheld cid.now held.now self.old self.new) }
    {
        // The contract of `version` tells the proof what holds of a CID.
        let _version = cid.version();
        if held.contains(cid) {
            return Ok(());
        }
        self.add(*cid)
    }

    /// Returns the members, in the order of CIDs.
    pub fn into_vec(self, alloc: Global) -> Result<Vec<Cid>, AllocError>
        ensures sorted { IfOk result (λ v. IsStrictlySortedBy cid_cmp v.items) }
        ensures all { IfOk result (λ v. v.items ≡ members self) }
        ensures memory { OnErr result (members self ≢ []) }
    {
        if self.cids.is_empty() {
            return Ok(Vec::new(alloc));
        }
        self.list_members(alloc)
    }

    /// Does what `into_vec` does, of an empty set too.
    fn list_members(self, alloc: Global) -> Result<Vec<Cid>, AllocError>
        ensures sorted { IfOk result (λ v. IsStrictlySortedBy cid_cmp v.items) }
        ensures all { IfOk result (λ v. v.items ≡ members self) }
    {
        let mut list = Vec::new(alloc);
        for cid in self.cids {
            list.push(cid)?;
        }
        Ok(list)
    }
}
