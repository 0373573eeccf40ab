//! The store, and its calls on single blocks.

ghost use Rattle.std.specs.Prelude.{◌≡◌, ◌↔◌, ◌⊎◌, IsTrue, IfOk, IfErr, IfSome, OnOk, option_map, length};
ghost use Rattle.ipld_links.specs.Sound.{IsSound};
ghost use Rattle.sqlite_value.specs.Order.{column};
ghost use Rattle.store_rows.specs.Ends.{Quiet};
ghost use Rattle.store_rows.specs.Rows.{name_tree};
ghost use Rattle.sqlite_trees.specs.View.{IsClean, IsRolledBack};
ghost use Rattle.store_on_disk.specs.Leaving.{StillLeavesStore};
ghost use Rattle.store_on_disk.specs.Stored.{IsReady, GivesNextName, bound_after, ListsName};
ghost use Rattle.store_on_disk.specs.Stored.{JustReads, IsUndone, IsNamedBy, GetsSome, GetRefused};
ghost use Rattle.store_on_disk.specs.Stored.{FailsByStore, TellsOfStore, IsCommitted, IsKeptBy};
ghost use Rattle.store_on_disk.specs.Stored.{IsAdded, IsAddedTo, IsPut, IsTaken, PutRefused};
ghost use Rattle.store_on_disk.specs.Stored.{AnswersVerified, IsToldAdded, IsBadRow, number_in};

use crate::error::StoreRefusal;
use arrayvec::ArrayVec;
use ipld_links::{SHA2_256, check_block};
use ipld_tree::Cid;
use sha2::{Digest, Sha256};
use sqlite_trees::error::StoreError;
use sqlite_trees::store::Store;
use sqlite_value::row::Row;
use sqlite_value::value::ValueRef;
use std::alloc::Global;
use std::marker::Model;
use store_rows::entries::{self, Added, Found};
use store_rows::survey::survey;

/// Blocks in a database, each under its name, a CID. A contract sees it as the database.
#[derive(Drop)]
pub struct BlockStore<S: Store> {
    pub(crate) alloc: Global,
    pub(crate) store: S,
    pub(crate) row: Row,
}

impl<S: Store> Model for BlockStore<S> {
    ghost use Rattle.sqlite_trees.specs.View.{IsClean};
    ghost use Rattle.store_on_disk.specs.Stored.{IsReady};

    ghost Value = { S };

    ghost coded = { S.code };

    ghost view = { λ b. b.store };

    ghost invariant = { λ b. IsClean (S.Store.view b.store) → IsReady (S.Store.view b.store) };
}

/// Undoes what is not committed, and returns the refusal for the error.
pub(crate) fn undo<S: Store>(store: &mut S, error: StoreError) -> StoreRefusal
    ensures told { TellsOfStore error result }
    ensures undone { IsRolledBack (S.Store.view store.old) (S.Store.view store.new) }
    ensures blame { S.Store.blamed store.new ≡ S.Store.blamed store.old }
    ensures quiet { Quiet S.Store store.old store.new }
{
    store.rollback();
    StoreRefusal::of_store(error)
}

/// Returns the number in a column of the row, if it has one.
fn number_at(row: &Row, place: usize) -> Option<u64>
    ensures { result ≡ number_in (column row.now place) }
{
    match row.get(place) {
        ValueRef::Int(number) => u64::try_from(number).ok(),
        _ => None,
    }
}

/// Returns the refusal of an index entry that no store writes.
pub(crate) fn bad_entry(entry: &Row) -> StoreRefusal
    ensures { result ≡ StoreRefusal.BadEntry (number_in (column entry.now 1)) }
{
    StoreRefusal::BadEntry(number_at(entry, 1))
}

/// Returns the refusal of a row of the table of roots that no store writes.
pub(crate) fn bad_root(row: &Row) -> StoreRefusal
    ensures { result ≡ StoreRefusal.BadRoot (number_in (column row.now 0)) }
{
    StoreRefusal::BadRoot(number_at(row, 0))
}

/// Undoes what is not committed, and returns the refusal of an entry or a row that no store writes.
pub(crate) fn disown<S: Store>(store: &mut S, refusal: StoreRefusal) -> StoreRefusal
    requires { IsBadRow refusal }
    ensures told { TellsOfStore StoreError.Broken result }
    ensures undone { IsRolledBack (S.Store.view store.old) (S.Store.view store.new) }
    ensures blame { S.Store.blamed store.new ≡ S.Store.blamed store.old }
    ensures quiet { Quiet S.Store store.old store.new }
{
    store.rollback();
    refusal
}

impl<S: Store> BlockStore<S> {
    pub(crate) fn of(alloc: Global, store: S, row: Row) -> BlockStore<S>
        requires { IsClean (S.Store.view store) → IsReady (S.Store.view store) }
        ensures { result ≡ store }
    {
        BlockStore { alloc, store, row }
    }

    /// Returns how many names are listed. It reads the whole index, and refuses with `BadEntry` if
    /// an entry is not one that a store writes.
    pub fn len(&mut self) -> Result<u64, StoreRefusal>
        ensures ok { IfOk result (λ n. IsClean (S.Store.view self.new)
            → n ≡ length ((S.Store.view self.old).trees name_tree)) }
        ensures refused { IfErr result (FailsByStore S.Store ⊥ self.old self.new) }
        ensures reads { JustReads S.Store result self.old self.new }
    {
        match survey(self.alloc, &mut self.store, &mut self.row) {
            Ok(Some(count)) => Ok(count),
            Ok(None) => Err(disown(&mut self.store, bad_entry(&self.row))),
            Err(error) => Err(undo(&mut self.store, error)),
        }
    }

    /// Returns whether something is listed under the name. It may be damaged: `get_block` finds
    /// out.
    pub fn contains(&mut self, name: &Cid) -> Result<bool, StoreRefusal>
        ensures found { IfOk result (λ found. IsClean (S.Store.view self.new)
            → (IsTrue found ↔ ListsName (S.Store.view self.old) name.now)) }
        ensures refused { IfErr result (FailsByStore S.Store ⊥ self.old self.new) }
        ensures reads { JustReads S.Store result self.old self.new }
    {
        let mut form = ArrayVec::new();
        name.write_bytes(&mut form);
        match entries::find(&mut self.store, &mut self.row, &form) {
            Ok(found) => Ok(found.is_some()),
            Err(error) => Err(undo(&mut self.store, error)),
        }
    }

    /// Returns the first listed name after `last`, or the first of all if that is `None`; `None` if
    /// no more follow. Names are ordered by the bytes of their binary forms. It refuses with
    /// `BadEntry` if the entry is not one that a store writes.
    pub fn next_name(&mut self, last: Option<Cid>) -> Result<Option<Cid>, StoreRefusal>
        ensures next { IfOk result (λ next. IsClean (S.Store.view self.new)
            → GivesNextName (S.Store.view self.old) last next) }
        ensures refused { IfErr result (FailsByStore S.Store ⊥ self.old self.new) }
        ensures reads { JustReads S.Store result self.old self.new }
    {
        let bound = bound_after(last);
        match entries::first_from(&mut self.store, &mut self.row, &bound) {
            Ok(None) => Ok(None),
            Ok(Some(Ok(name))) => Ok(Some(name)),
            Ok(Some(Err(_))) => Err(disown(&mut self.store, bad_entry(&self.row))),
            Err(error) => Err(undo(&mut self.store, error)),
        }
    }

    /// Returns the bytes of the block under the name, or `None` if nothing is listed under it. The
    /// bytes always match the name, whatever the disk returned.
    pub fn get_block(&mut self, name: &Cid) -> Result<Option<Vec<u8>>, StoreRefusal>
        ensures verified { IfOk result (λ found. IfSome found (λ b. IsNamedBy name.now b.items)) }
        ensures found { IfOk result (λ found. IsClean (S.Store.view self.new)
            → GetsSome (S.Store.view self.old) name.now (option_map (λ b. b.items) found)) }
        ensures refused { IfErr result (GetRefused S.Store name.now self.old self.new) }
        ensures reads { JustReads S.Store result self.old self.new }
    {
        let mut form = ArrayVec::new();
        name.write_bytes(&mut form);
        match entries::get(self.alloc, &mut self.store, &mut self.row, &form) {
            Ok(found) => verified(name, found),
            Err(error) => Err(undo(&mut self.store, error)),
        }
    }

    /// Makes additions and removals durable. If it fails, all of them are undone.
    pub fn commit(&mut self) -> Result<(), StoreRefusal>
        ensures ok { OnOk result (IsClean (S.Store.view self.new)
            → IsCommitted (S.Store.view self.old) (S.Store.view self.new)) }
        ensures refused { IfErr result (FailsByStore S.Store ⊥ self.old self.new) }
        ensures crash { (db : _) → S.Store.recovers self.new db
            → (db ≡ (S.Store.view self.old).trees) ⊎ S.Store.recovers self.old db }
        ensures leaves { StillLeavesStore S.Store self.old self.new }
        ensures kept { IsKeptBy S.Store self.old self.new }
    {
        match self.store.commit() {
            Ok(()) => Ok(()),
            Err(error) => Err(StoreRefusal::of_store(error)),
        }
    }

    /// Undoes all that is not committed.
    pub fn rollback(&mut self)
        ensures undone { IsClean (S.Store.view self.new)
            → IsUndone (S.Store.view self.old) (S.Store.view self.new) }
        ensures blame { S.Store.blamed self.new ≡ S.Store.blamed self.old }
        ensures quiet { Quiet S.Store self.old self.new }
    {
        self.store.rollback();
    }

    /// Stores the block under its name, whatever its codec, as of the next commit. Other bytes
    /// under the name, which are damaged then, are replaced.
    ///
    /// The digest of the name must be the SHA-256 of the block, of 32 bytes. If the codec is
    /// DAG-CBOR, the block must be valid, and read within 256 steps.
    pub fn add_block(&mut self, name: &Cid, block: &[u8]) -> Result<(), StoreRefusal>
        ensures ok { OnOk result (IsSound (name.now, block.now) × (IsClean (S.Store.view self.new)
            → IsAdded (S.Store.view self.old) (S.Store.view self.new) name.now block.now)) }
        ensures refused { IfErr result (PutRefused S.Store (name.now, block.now) self.old self.new) }
        ensures quiet { Quiet S.Store self.old self.new }
    {
        if let Err(cause) = check_block(name, block) {
            return Err(StoreRefusal::Unsound(cause));
        }
        let mut form = ArrayVec::new();
        name.write_bytes(&mut form);
        match entries::add(&mut self.store, &mut self.row, &form, block) {
            Ok(added) => told(added),
            Err(error) => Err(undo(&mut self.store, error)),
        }
    }

    /// Stores the block under its name, and commits it, with all that waited for a commit. Once
    /// this returns `Ok` the block is stored, even after a power failure.
    pub fn put_block(&mut self, name: &Cid, block: &[u8]) -> Result<(), StoreRefusal>
        ensures ok { OnOk result (IsSound (name.now, block.now) × (IsClean (S.Store.view self.new)
            → IsPut (S.Store.view self.old) (S.Store.view self.new) name.now block.now)) }
        ensures refused { IfErr result (PutRefused S.Store (name.now, block.now) self.old self.new) }
        ensures crash { (db : _) → S.Store.recovers self.new db → S.Store.recovers self.old db
            ⊎ (IsClean (S.Store.view self.new)
            → IsAddedTo (S.Store.view self.old).trees db name.now block.now) }
        ensures leaves { StillLeavesStore S.Store self.old self.new }
        ensures kept { IsKeptBy S.Store self.old self.new }
    {
        self.add_block(name, block)?;
        self.commit()
    }

    /// Removes the block under the name as of the next commit, and returns whether one was listed.
    /// A damaged block is removed too.
    pub fn remove(&mut self, name: &Cid) -> Result<bool, StoreRefusal>
        ensures ok { IfOk result (λ taken. IsClean (S.Store.view self.new)
            → IsTaken (S.Store.view self.old) (S.Store.view self.new) name.now taken) }
        ensures refused { IfErr result (FailsByStore S.Store ⊥ self.old self.new) }
        ensures quiet { Quiet S.Store self.old self.new }
    {
        let mut form = ArrayVec::new();
        name.write_bytes(&mut form);
        match entries::take(&mut self.store, &mut self.row, &form) {
            Ok(taken) => Ok(taken),
            Err(error) => Err(undo(&mut self.store, error)),
        }
    }
}

/// Returns the least bytes that come after the last name.
fn bound_after(last: Option<Cid>) -> ArrayVec<u8, 87>
    ensures { result.items ≡ bound_after last }
{
    let mut bound = ArrayVec::new();
    if let Some(name) = last {
        let mut form = ArrayVec::new();
        name.write_bytes(&mut form);
        bound.try_extend_from_slice(&form).unwrap();
        bound.push(0);
    }
    bound
}

/// Returns the result for a block that was to be stored.
pub(crate) fn told(added: Added) -> Result<(), StoreRefusal>
    ensures { IsToldAdded added result }
{
    match added {
        Added::New => Ok(()),
        Added::Stored => Ok(()),
        Added::NoNumber => Err(StoreRefusal::NoNumber),
    }
}

/// Returns whether the bytes match the name.
fn is_named(name: &Cid, bytes: &[u8]) -> bool
    ensures { IsTrue result ↔ IsNamedBy name.now bytes.now }
{
    name.hash_code() == SHA2_256 && name.digest() == Sha256::digest(bytes).as_slice()
}

/// Returns what was found under the name, if it matches the name.
fn verified(name: &Cid, found: Found) -> Result<Option<Vec<u8>>, StoreRefusal>
    ensures { AnswersVerified name.now found result }
{
    match found {
        Found::Nothing => Ok(None),
        Found::NoRow => Err(StoreRefusal::Damaged(*name)),
        Found::Block(bytes) => {
            if is_named(name, &bytes) {
                Ok(Some(bytes))
            } else {
                Err(StoreRefusal::Damaged(*name))
            }
        }
    }
}
