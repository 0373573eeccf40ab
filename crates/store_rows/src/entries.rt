//! The rows of the two trees: blocks by their numbers, and numbers by the names of blocks.

ghost use Rattle.std.specs.Prelude.{◌≡◌, ◌≢◌, ◌↔◌, ◌∷◌, [], IsTrue, MatchBool, MatchOption, option_map, pos, ◌+ℤ◌, IfOk, IfSome, OnOk};
ghost use Rattle.sqlite_value.specs.declared.value.Value.TheVariants.{Int, Blob};
ghost use Rattle.sqlite_value.specs.Value.{owned};
ghost use Rattle.sqlite_value.specs.Order.{column};
ghost use Rattle.sqlite_value.specs.Keys.{plain};
ghost use Rattle.sqlite_trees.specs.View.{IsClean, IsStorable, SetsTree};
ghost use Rattle.sqlite_trees.specs.Tree.{put_row, insert_entry, remove_entry};
ghost use Rattle.sqlite_exec.specs.Calls.{OnlyReads};
ghost use Rattle.store_rows.specs.Ends.{EndsOnRows, WritesIn, IsOfBlocks, HasNames, HasBlocks, HasTable};
ghost use Rattle.store_rows.specs.RootRows.{IsAboveAll};
ghost use Rattle.store_rows.specs.Rows.{block_tree, name_tree, block_row, name_entry, IsOther, SeeksEntry, FindsName, EntersName, FindsFirst, FreesId, last_id, ReadsBlockRow, IsRowIn, LooksUp, AddsBlockRow, Appends, Renews, IsTooLong, TakesOutName, TakesOutEntry, TakesOutRow};

use ipld_tree::{Cid, CidError};
use sqlite_exec::write::last;
use sqlite_trees::error::StoreError;
use sqlite_trees::store::{Direction, Store};
use sqlite_value::row::Row;
use sqlite_value::value::ValueRef;
use std::alloc::{AllocError, Global};

/// What the index and the table hold for a name.
#[derive(Debug, Drop)]
pub enum Found {
    /// The name is not listed.
    Nothing,
    /// The entry does not lead to a row of the name.
    NoRow,
    /// The bytes in the row of the name.
    Block(Vec<u8>),
}

/// The tree of the table `block`.
pub const BLOCKS: u32 = 0;

/// The tree of its index by names.
pub const NAMES: u32 = 1;

/// The cursor that walks use.
pub(crate) const CURSOR: u16 = 0;

/// The outcome of storing a block.
#[derive(Clone, Copy, Debug, PartialEq, Eq)]
pub enum Added {
    /// The bytes are in a row of their own.
    New,
    /// The bytes were in the row of the name already, and nothing was changed.
    Stored,
    /// A row has the greatest number, so none is left.
    NoNumber,
}

/// Returns the integer that the value is, if it is one.
pub(crate) fn integer(value: ValueRef<'_>) -> Option<i64>
    ensures { MatchOption result ((id : _) → owned value.entry ≢ Int id)
        (λ id. owned value.entry ≡ Int id) }
{
    match value {
        ValueRef::Int(id) => Some(id),
        _ => None,
    }
}

/// Returns whether the value is these bytes.
pub(crate) fn is_blob(value: ValueRef<'_>, bytes: &[u8]) -> bool
    ensures { IsTrue result ↔ (owned value.entry ≡ Blob bytes.now) }
{
    match value {
        ValueRef::Blob(found) => found == bytes,
        _ => false,
    }
}

/// Returns the number in an entry of the index, if the entry is of this name.
#[tactic(auto, using(crate::proofs::Finding::two_columns, crate::proofs::Finding::no_entry))]
fn number_in(entry: &Row, name: &[u8]) -> Option<i64>
    ensures { MatchOption result (IsOther name.now (entry.now ∷ []))
        (λ id. entry.now ≡ name_entry name.now id) }
{
    if entry.len() == 2 && is_blob(entry.get(0), name) {
        integer(entry.get(1))
    } else {
        None
    }
}

/// Reads the first entry that is not below the name. Returns whether there is one.
fn seek_name<S: Store>(store: &mut S, row: &mut Row, name: &[u8]) -> Result<bool, StoreError>
    requires names { HasNames S.Store store.old }
    ensures ok { IfOk result (λ is_there. IsClean (S.Store.view store.new)
        → SeeksEntry ((S.Store.view store.old).trees name_tree) name.now row.new is_there) }
    ensures ends { EndsOnRows S.Store OnlyReads ⊥ result store.old store.new }
{
    row.clear();
    row.push(ValueRef::Blob(name))?;
    store.seek(CURSOR, NAMES, row, Direction::Forward)?;
    store.next(CURSOR, row)
}

/// Returns the number of the row that the index lists for the name, if any.
pub fn find<S: Store>(store: &mut S, row: &mut Row, name: &[u8]) -> Result<Option<i64>, StoreError>
    requires names { HasNames S.Store store.old }
    ensures ok { IfOk result (λ o. IsClean (S.Store.view store.new)
        → FindsName ((S.Store.view store.old).trees name_tree) name.now o) }
    ensures ends { EndsOnRows S.Store OnlyReads ⊥ result store.old store.new }
{
    let is_there = seek_name(store, row, name)?;
    if is_there {
        Ok(number_in(row, name))
    } else {
        Ok(None)
    }
}

/// Returns the name in an entry of the index, or why it has none.
fn name_in(entry: &Row) -> Result<Cid, CidError>
    ensures { EntersName entry.now result }
{
    match entry.get(0) {
        ValueRef::Blob(bytes) => Cid::try_from(bytes),
        _ => Err(CidError::Truncated),
    }
}

/// Returns the first listed name that is not below the bound, or why its entry has no name.
pub fn first_from<S: Store>(
    store: &mut S,
    row: &mut Row,
    bound: &[u8],
) -> Result<Option<Result<Cid, CidError>>, StoreError>
    requires names { HasNames S.Store store.old }
    ensures ok { IfOk result (λ f. IsClean (S.Store.view store.new)
        → FindsFirst ((S.Store.view store.old).trees name_tree) bound.now f) }
    ensures ends { EndsOnRows S.Store OnlyReads ⊥ result store.old store.new }
{
    let is_there = seek_name(store, row, bound)?;
    if is_there {
        Ok(Some(name_in(row)))
    } else {
        Ok(None)
    }
}

/// Returns a number above that of each row, or `None` if a row has the greatest number.
pub(crate) fn free_number<S: Store>(
    store: &mut S,
    table: u32,
    row: &mut Row,
) -> Result<Option<i64>, StoreError>
    requires table { HasTable S.Store table store.old }
    ensures ok { IfOk result (λ o. IsClean (S.Store.view store.new)
        → FreesId ((S.Store.view store.old).trees table) o) }
    ensures above { IfOk result (λ o. IsClean (S.Store.view store.new)
        → IfSome o (IsAboveAll ((S.Store.view store.old).trees table))) }
    ensures ends { EndsOnRows S.Store OnlyReads ⊥ result store.old store.new }
{
    if last(store, table, row)? {
        Ok(number_above(row.get(0)))
    } else {
        Ok(Some(1))
    }
}

/// Returns the next number, or `None` after the greatest or if the value is not a number.
fn number_above(value: ValueRef<'_>) -> Option<i64>
    ensures { MatchOption result ((id : _) → owned value.entry ≡ Int id → id ≡ last_id)
        (λ n. (id : _) × (owned value.entry ≡ Int id) × (n ≡ id +ℤ pos 1)) }
{
    integer(value)?.checked_add(1)
}

/// Returns what the index and the table hold for the name.
pub fn get<S: Store>(
    alloc: Global,
    store: &mut S,
    row: &mut Row,
    name: &[u8],
) -> Result<Found, StoreError>
    requires names { HasNames S.Store store.old }
    requires blocks { HasBlocks S.Store store.old }
    ensures ok { IfOk result (λ found. IsClean (S.Store.view store.new)
        → LooksUp (S.Store.view store.old).trees name.now found) }
    ensures ends { EndsOnRows S.Store OnlyReads ⊥ result store.old store.new }
{
    let Some(id) = find(store, row, name)? else {
        return Ok(Found::Nothing);
    };
    match read(alloc, store, row, id, name)? {
        Some(bytes) => Ok(Found::Block(bytes)),
        None => Ok(Found::NoRow),
    }
}

/// Returns the bytes in the row with the number, or `None` if no row of the name has it.
fn read<S: Store>(
    alloc: Global,
    store: &mut S,
    row: &mut Row,
    id: i64,
    name: &[u8],
) -> Result<Option<Vec<u8>>, StoreError>
    requires blocks { HasBlocks S.Store store.old }
    ensures ok { IfOk result (λ o. IsClean (S.Store.view store.new)
        → ReadsBlockRow ((S.Store.view store.old).trees block_tree) id name.now
        (option_map (λ v. v.items) o)) }
    ensures ends { EndsOnRows S.Store OnlyReads ⊥ result store.old store.new }
{
    if store.get(BLOCKS, id, row)? {
        Ok(bytes_in(alloc, row, name)?)
    } else {
        Ok(None)
    }
}

/// Returns the bytes in the row, if it is of the name.
fn bytes_in(alloc: Global, row: &Row, name: &[u8]) -> Result<Option<Vec<u8>>, AllocError>
    ensures { IfOk result (λ o. MatchOption o ((id : _) (b : _) → row.now ≢ block_row id name.now b)
        (λ v. row.now ≡ column row.now 0 ∷ Blob name.now ∷ Blob v.items ∷ [])) }
{
    if row.len() != 3 || !is_blob(row.get(1), name) {
        return Ok(None);
    }
    match row.get(2) {
        ValueRef::Blob(bytes) => Ok(Some(bytes.to_vec(alloc)?)),
        _ => Ok(None),
    }
}

/// Returns whether the row is of the name and has just these bytes.
fn is_row(row: &Row, name: &[u8], bytes: &[u8]) -> bool
    ensures { MatchBool result
        (row.now ≡ column row.now 0 ∷ Blob name.now ∷ Blob bytes.now ∷ [])
        ((id : _) → row.now ≢ block_row id name.now bytes.now) }
{
    row.len() == 3 && is_blob(row.get(1), name) && is_blob(row.get(2), bytes)
}

/// Returns whether the row with the number is of the name and has just these bytes.
fn is_stored<S: Store>(
    store: &mut S,
    row: &mut Row,
    id: i64,
    name: &[u8],
    bytes: &[u8],
) -> Result<bool, StoreError>
    requires blocks { HasBlocks S.Store store.old }
    ensures ok { IfOk result (λ is_there. IsClean (S.Store.view store.new)
        → IsRowIn ((S.Store.view store.old).trees block_tree) id name.now bytes.now is_there) }
    ensures ends { EndsOnRows S.Store OnlyReads ⊥ result store.old store.new }
{
    if store.get(BLOCKS, id, row)? {
        Ok(is_row(row, name, bytes))
    } else {
        Ok(false)
    }
}

/// Stores the bytes in a row of their own, and lists the name. If they are stored under the name
/// already, nothing is changed; anything else that is listed under it is removed.
pub fn add<S: Store>(
    store: &mut S,
    row: &mut Row,
    name: &[u8],
    bytes: &[u8],
) -> Result<Added, StoreError>
    requires blocks { HasBlocks S.Store store.old }
    requires names { HasNames S.Store store.old }
    ensures ok { IfOk result (λ added. IsClean (S.Store.view store.new)
        → AddsBlockRow (S.Store.view store.old).trees (S.Store.view store.new).trees
        name.now bytes.now added) }
    ensures ends { EndsOnRows S.Store (WritesIn IsOfBlocks)
        (IsTooLong (S.Store.view store.old).reals name.now bytes.now)
        result store.old store.new }
{
    match find(store, row, name)? {
        Some(id) => renew(store, row, id, name, bytes),
        None => append(store, row, name, bytes),
    }
}

/// Stores the bytes in a row of their own, and lists the name, which was not listed.
fn append<S: Store>(
    store: &mut S,
    row: &mut Row,
    name: &[u8],
    bytes: &[u8],
) -> Result<Added, StoreError>
    requires blocks { HasBlocks S.Store store.old }
    requires names { HasNames S.Store store.old }
    ensures ok { IfOk result (λ added. IsClean (S.Store.view store.new)
        → Appends (S.Store.view store.old).trees (S.Store.view store.new).trees
        name.now bytes.now added) }
    ensures ends { EndsOnRows S.Store (WritesIn IsOfBlocks)
        (IsTooLong (S.Store.view store.old).reals name.now bytes.now)
        result store.old store.new }
{
    let Some(id) = free_number(store, BLOCKS, row)? else {
        return Ok(Added::NoNumber);
    };
    put(store, row, id, name, bytes)?;
    Ok(Added::New)
}

/// Replaces what is listed under the name, whose entry has this number, by the bytes.
fn renew<S: Store>(
    store: &mut S,
    row: &mut Row,
    id: i64,
    name: &[u8],
    bytes: &[u8],
) -> Result<Added, StoreError>
    requires blocks { HasBlocks S.Store store.old }
    requires names { HasNames S.Store store.old }
    ensures ok { IfOk result (λ added. IsClean (S.Store.view store.new)
        → Renews (S.Store.view store.old).trees (S.Store.view store.new).trees
        id name.now bytes.now added) }
    ensures ends { EndsOnRows S.Store (WritesIn IsOfBlocks)
        (IsTooLong (S.Store.view store.old).reals name.now bytes.now)
        result store.old store.new }
{
    if is_stored(store, row, id, name, bytes)? {
        return Ok(Added::Stored);
    }
    let Some(fresh) = free_number(store, BLOCKS, row)? else {
        return Ok(Added::NoNumber);
    };
    take_entry(store, row, id, name)?;
    put(store, row, fresh, name, bytes)?;
    Ok(Added::New)
}

/// Writes the row with this number, and its entry.
fn put<S: Store>(
    store: &mut S,
    row: &mut Row,
    id: i64,
    name: &[u8],
    bytes: &[u8],
) -> Result<(), StoreError>
    requires blocks { HasBlocks S.Store store.old }
    requires names { HasNames S.Store store.old }
    ensures row { OnOk result (IsClean (S.Store.view store.new)
        → (S.Store.view store.new).trees block_tree
        ≡ put_row (block_row id name.now bytes.now)
        ((S.Store.view store.old).trees block_tree)) }
    ensures entry { OnOk result (IsClean (S.Store.view store.new)
        → (S.Store.view store.new).trees name_tree
        ≡ insert_entry plain (name_entry name.now id)
        ((S.Store.view store.old).trees name_tree)) }
    ensures ends { EndsOnRows S.Store (WritesIn IsOfBlocks)
        (IsTooLong (S.Store.view store.old).reals name.now bytes.now)
        result store.old store.new }
{
    row.clear();
    row.push(ValueRef::Int(id))?;
    row.push(ValueRef::Blob(name))?;
    row.push(ValueRef::Blob(bytes))?;
    store.put(BLOCKS, row)?;
    list(store, row, id, name)
}

/// Writes the entry of the name.
fn list<S: Store>(store: &mut S, row: &mut Row, id: i64, name: &[u8]) -> Result<(), StoreError>
    requires names { HasNames S.Store store.old }
    ensures ok { OnOk result (IsClean (S.Store.view store.new)
        → SetsTree (S.Store.view store.old) (S.Store.view store.new) name_tree
        (insert_entry plain (name_entry name.now id))) }
    ensures ends { EndsOnRows S.Store (WritesIn IsOfBlocks)
        (¬ IsStorable ((S.Store.view store.old).reals name_tree) (name_entry name.now id))
        result store.old store.new }
{
    row.clear();
    row.push(ValueRef::Blob(name))?;
    row.push(ValueRef::Int(id))?;
    store.insert(NAMES, row)
}

/// Removes the name from the index, and its row from the table if that is of the name. Returns
/// whether the name was listed.
pub fn take<S: Store>(store: &mut S, row: &mut Row, name: &[u8]) -> Result<bool, StoreError>
    requires blocks { HasBlocks S.Store store.old }
    requires names { HasNames S.Store store.old }
    ensures ok { IfOk result (λ taken. IsClean (S.Store.view store.new)
        → TakesOutName (S.Store.view store.old).trees (S.Store.view store.new).trees name.now taken) }
    ensures ends { EndsOnRows S.Store (WritesIn IsOfBlocks) ⊥ result store.old store.new }
{
    let Some(id) = find(store, row, name)? else {
        return Ok(false);
    };
    take_entry(store, row, id, name)?;
    Ok(true)
}

/// Removes the entry of the name, and its row if that is of the name.
fn take_entry<S: Store>(
    store: &mut S,
    row: &mut Row,
    id: i64,
    name: &[u8],
) -> Result<(), StoreError>
    requires blocks { HasBlocks S.Store store.old }
    requires names { HasNames S.Store store.old }
    ensures ok { OnOk result (IsClean (S.Store.view store.new)
        → TakesOutEntry (S.Store.view store.old).trees (S.Store.view store.new).trees id name.now) }
    ensures ends { EndsOnRows S.Store (WritesIn IsOfBlocks) ⊥ result store.old store.new }
{
    take_row(store, row, id, name)?;
    unlist(store, row, id, name)
}

/// Removes the row with the number if it is of the name.
fn take_row<S: Store>(store: &mut S, row: &mut Row, id: i64, name: &[u8]) -> Result<(), StoreError>
    requires blocks { HasBlocks S.Store store.old }
    ensures ok { OnOk result (IsClean (S.Store.view store.new)
        → TakesOutRow (S.Store.view store.old).trees (S.Store.view store.new).trees id name.now) }
    ensures ends { EndsOnRows S.Store (WritesIn IsOfBlocks) ⊥ result store.old store.new }
{
    let found = store.get(BLOCKS, id, row)?;
    if found && is_blob(row.get(1), name) {
        store.delete(BLOCKS, id)
    } else {
        Ok(())
    }
}

/// Removes the entry of the name from the index.
fn unlist<S: Store>(store: &mut S, row: &mut Row, id: i64, name: &[u8]) -> Result<(), StoreError>
    requires names { HasNames S.Store store.old }
    ensures ok { OnOk result (IsClean (S.Store.view store.new)
        → SetsTree (S.Store.view store.old) (S.Store.view store.new) name_tree
        (remove_entry plain (name_entry name.now id))) }
    ensures ends { EndsOnRows S.Store (WritesIn IsOfBlocks) ⊥ result store.old store.new }
{
    row.clear();
    row.push(ValueRef::Blob(name))?;
    row.push(ValueRef::Int(id))?;
    store.remove(NAMES, row)
}
