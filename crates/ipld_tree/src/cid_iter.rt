//! An iterator over a list of CIDs.

ghost use Rattle.std.specs.Prelude.{◌≡◌};
ghost use Rattle.std.specs.Iterator.{YieldsFirst, item_count};
ghost use Rattle.ipld_tree.specs.CidIters.{cids_left};

use crate::cid::Cid;
use std::alloc::Global;
use std::vec::IntoIter;

/// An iterator over the CIDs of a list, which it owns.
#[derive(Drop)]
pub struct CidIter {
    cids: IntoIter<Cid, Global>,
}

impl CidIter {
    /// Returns an iterator over these CIDs.
    pub fn new(cids: Vec<Cid>) -> CidIter
        ensures { cids_left result ≡ cids.items }
    {
        CidIter {
            cids: cids.into_iter(),
        }
    }
}

impl Iterator for CidIter {
    type Item = Cid;

    ghost next_gives = { YieldsFirst cids_left };

    ghost remaining = { item_count cids_left };

    fn next(&mut self) -> Option<Cid> {
        self.cids.next()
    }
}
