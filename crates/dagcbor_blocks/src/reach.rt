//! The blocks that links lead to.

ghost use Rattle.std.specs.Prelude.{IfOk, OnErr, MatchBool};
ghost use Rattle.ipld_links.specs.Reaching.{ListsReachable};
ghost use Rattle.dagcbor_blocks.specs.Blocks.{held_blocks};
ghost use Rattle.dagcbor_blocks.specs.Reaching.{stored, MayLead, IsNotHeld};

use crate::store::Blocks;
use ipld_links::{IDENTITY, Reached, reach_from};
use serde_ipld_dagcbor::Cid;
use std::alloc::AllocError;

impl Blocks {
    /// Returns the names of the stored blocks that links lead to from the root, each once. They
    /// come depth first, the root first, with the links of a block in their order. A name by the
    /// identity holds its block itself: it is not listed, but the links in that block are followed.
    pub fn reachable(&self, root: &Cid) -> Result<Vec<Cid>, AllocError>
        ensures reachable { IfOk result
            (λ v. ListsReachable (stored (held_blocks self.now)) root.now v.items) }
        ensures memory { OnErr result (MayLead (held_blocks self.now) root.now) }
    {
        if !self.may_lead(root) {
            return Ok(Vec::new(self.alloc));
        }
        self.reach(root)
    }

    /// Returns whether a block is stored under the name, or the name is by the identity.
    pub(crate) fn may_lead(&self, name: &Cid) -> bool
        ensures { MatchBool result (MayLead (held_blocks self.now) name.now)
            (IsNotHeld (held_blocks self.now) name.now) }
    {
        if name.hash_code() == IDENTITY {
            return true;
        }
        self.contains(name)
    }

    /// Does what `reachable` does, whatever the root is.
    pub(crate) fn reach(&self, root: &Cid) -> Result<Vec<Cid>, AllocError>
        ensures { IfOk result
            (λ v. ListsReachable (stored (held_blocks self.now)) root.now v.items) }
    {
        let Reached { found, lost: _ } = reach_from(self.alloc, &self.blocks, root)?;
        Ok(found)
    }
}
