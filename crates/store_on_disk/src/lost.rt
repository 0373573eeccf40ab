//! The links that lead to no block of the store.

ghost use Rattle.std.specs.Prelude.{◌≡◌, IfOk, IfErr, OnOk};
ghost use Rattle.ipld_links.specs.Sets.{Among};
ghost use Rattle.ipld_links.specs.Blocks.{IsBlockOf};
ghost use Rattle.sqlite_trees.specs.View.{IsClean};
ghost use Rattle.store_on_disk.specs.Stored.{JustReads, FailsByStore};
ghost use Rattle.store_on_disk.specs.Lost.{ListsLostLinks, LostRefused, AddsLost, AddsUnlisted};
ghost use Rattle.store_on_disk.specs.Lost.{AddsNames, AddsLostLinks, ListsKeys, GrowsByLost};
ghost use Rattle.store_on_disk.specs.Lost.{IsReachedIn};

use crate::error::StoreRefusal;
use crate::store::BlockStore;
use ipld_links::{RAW, hidden_links, names_of_block};
use ipld_tree::Cid;
use sqlite_trees::store::Store;
use std::alloc::{AllocError, Global};
use std::collections::BTreeSet;

/// Returns the CIDs of the set, in their order.
fn in_order(alloc: Global, keys: BTreeSet<Cid>) -> Result<Vec<Cid>, AllocError>
    ensures { ListsKeys keys.keys result }
{
    let mut list = Vec::new(alloc);
    for key in keys {
        list.push(key)?;
    }
    Ok(list)
}

impl<S: Store> BlockStore<S> {
    /// Returns the links in stored blocks under which nothing is listed, each once, in the order of
    /// CIDs. A CID with the identity hash holds its block inline: it is not listed, but the links
    /// in that block are followed. It refuses with `LinksUnread` if the links of a block are not
    /// known. One block is in memory at a time, besides the links that are returned.
    pub fn lost(&mut self) -> Result<Vec<Cid>, StoreRefusal>
        ensures lists { IfOk result (λ v. IsClean (S.Store.view self.new)
            → ListsLostLinks (S.Store.view self.old) v.items) }
        ensures refused { IfErr result (LostRefused S.Store self.old self.new) }
        ensures reads { JustReads S.Store result self.old self.new }
    {
        let mut lost = BTreeSet::new(self.alloc);
        let mut last = None;
        for _count in 0..u64::MAX {
            match self.add_links(last, &mut lost)? {
                Some(name) => last = Some(name),
                None => match in_order(self.alloc, lost) {
                    Ok(links) => return Ok(links),
                    Err(_) => return Err(self.give_up()),
                },
            }
        }
        Err(self.give_up())
    }

    /// Adds the links of the next block under which nothing is listed, and returns the name of that
    /// block.
    fn add_links(
        &mut self,
        last: Option<Cid>,
        lost: &mut BTreeSet<Cid>,
    ) -> Result<Option<Cid>, StoreRefusal>
        ensures ok { IfOk result (λ next. IsClean (S.Store.view self.new)
            → AddsLostLinks (S.Store.view self.old) last lost.old next lost.new) }
        ensures refused { IfErr result (LostRefused S.Store self.old self.new) }
        ensures reads { JustReads S.Store result self.old self.new }
    {
        let (name, block) = match self.next_block(last)? {
            Some(next) => next,
            None => return Ok(None),
        };
        if let Some(verdict) = hidden_links(name.codec(), &block) {
            return Err(StoreRefusal::LinksUnread(name, verdict));
        }
        if name.codec() == RAW {
            return Ok(Some(name));
        }
        self.add_lost(name.codec(), &block, lost)?;
        Ok(Some(name))
    }

    /// Adds the links of the block under which nothing is listed, as `lost` finds them. After a
    /// refusal the set has what it had, and maybe some of those links.
    pub fn add_lost(
        &mut self,
        codec: u64,
        block: &[u8],
        lost: &mut BTreeSet<Cid>,
    ) -> Result<(), StoreRefusal>
        requires { IsBlockOf codec block.now }
        ensures ok { OnOk result (IsClean (S.Store.view self.new)
            → AddsLost (S.Store.view self.old) codec block.now lost.old lost.new) }
        ensures grows { GrowsByLost (IsReachedIn codec block.now) lost.old lost.new }
        ensures refused { IfErr result (FailsByStore S.Store ⊥ self.old self.new) }
        ensures reads { JustReads S.Store result self.old self.new }
    {
        match names_of_block(self.alloc, codec, block) {
            Ok(names) => self.add_unlisted(&names, lost),
            Err(_) => Err(self.give_up()),
        }
    }

    /// Adds the names that are not listed.
    fn add_unlisted(&mut self, names: &[Cid], lost: &mut BTreeSet<Cid>) -> Result<(), StoreRefusal>
        ensures ok { OnOk result (IsClean (S.Store.view self.new)
            → AddsNames (S.Store.view self.old) names.now lost.old lost.new) }
        ensures grows { GrowsByLost (λ q. Among q names.now) lost.old lost.new }
        ensures refused { IfErr result (FailsByStore S.Store ⊥ self.old self.new) }
        ensures reads { JustReads S.Store result self.old self.new }
    {
        for name in names {
            self.add_if_unlisted(name, lost)?;
        }
        Ok(())
    }

    fn add_if_unlisted(&mut self, name: &Cid, lost: &mut BTreeSet<Cid>) -> Result<(), StoreRefusal>
        ensures ok { OnOk result (IsClean (S.Store.view self.new)
            → AddsUnlisted (S.Store.view self.old) name.now lost.old lost.new) }
        ensures grows { GrowsByLost (λ q. q ≡ name.now) lost.old lost.new }
        ensures refused { IfErr result (FailsByStore S.Store ⊥ self.old self.new) }
        ensures reads { JustReads S.Store result self.old self.new }
    {
        if self.contains(name)? {
            return Ok(());
        }
        match lost.insert(*name) {
            Ok(_added) => Ok(()),
            Err(_) => Err(self.give_up()),
        }
    }
}
