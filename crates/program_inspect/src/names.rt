//! Sets of CIDs.

ghost use Rattle.std.specs.Prelude.{◌≡◌, [], length, IfOk, OnOk};
ghost use Rattle.std.specs.BTreeSet.{insert_key};
ghost use Rattle.ipld_tree.specs.Cid.{cid_cmp};
ghost use Rattle.program_inspect.specs.Names.{distinct, is_one_of};

use ipld_tree::Cid;
use std::alloc::{AllocError, Global};
use std::collections::BTreeSet;

/// A set of CIDs.
#[derive(Drop)]
pub struct Names {
    cids: BTreeSet<Cid>,
}

impl Names {
    /// Returns the empty set.
    pub fn new(alloc: Global) -> Names
        ensures { result.cids.keys ≡ [] }
    {
        Names {
            cids: BTreeSet::new(alloc),
        }
    }

    /// Returns the set of these.
    pub fn of(alloc: Global, cids: &[Cid]) -> Result<Names, AllocError>
        ensures { IfOk result (λ names. names.cids.keys ≡ distinct cids.now) }
    {
        let mut names = Names::new(alloc);
        for cid in cids {
            names.add(*cid)?;
        }
        Ok(names)
    }

    /// Adds the CID.
    pub fn add(&mut self, cid: Cid) -> Result<(), AllocError>
        ensures { OnOk result (self.new.cids.keys ≡ insert_key cid_cmp self.old.cids.keys cid) }
    {
        match self.cids.insert(cid) {
            Ok(_added) => Ok(()),
            Err(_) => Err(AllocError),
        }
    }

    /// Returns whether the set has the CID.
    pub fn contains(&self, cid: &Cid) -> bool
        ensures { result ≡ is_one_of cid.now self.now.cids.keys }
    {
        self.cids.contains(cid)
    }

    /// Returns how many CIDs there are.
    pub fn count(&self) -> usize
        ensures { result ≡ length self.now.cids.keys }
    {
        self.cids.len()
    }
}
