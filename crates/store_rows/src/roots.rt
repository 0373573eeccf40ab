//! The rows of the table of roots: names, by their numbers.

ghost use Rattle.std.specs.Prelude.{◌≡◌, ◌≢◌, MatchOption, IfOk, OnOk};
ghost use Rattle.sqlite_trees.specs.View.{IsClean};
ghost use Rattle.sqlite_trees.specs.Tree.{put_row, without_rowid};
ghost use Rattle.sqlite_exec.specs.Calls.{OnlyReads};
ghost use Rattle.store_rows.specs.Ends.{EndsOnRows, WritesIn, IsOfRoots, HasTable, MayHaveRoots};
ghost use Rattle.store_rows.specs.RootRows.{root_tree, root_row, IsRootIn, AreRoots, FindsRoot, AppendsRoot, TakesOutRoot, TakesRoot, IsRootTooLong};

use crate::entries::{Added, CURSOR, free_number, integer, is_blob};
use ipld_tree::Cid;
use sqlite_trees::error::StoreError;
use sqlite_trees::store::{Direction, Store};
use sqlite_value::row::Row;
use sqlite_value::value::ValueRef;
use std::alloc::Global;

/// The tree of the table `root`.
pub const ROOTS: u32 = 2;

/// Returns the number of the row, if it is of this name.
#[tactic(auto, using(crate::proofs::Finding::two_columns, crate::proofs::Rooting::no_row))]
fn number_in(row: &Row, name: &[u8]) -> Option<i64>
    ensures { MatchOption result ((id : _) → row.now ≢ root_row id name.now)
        (λ id. row.now ≡ root_row id name.now) }
{
    if row.len() == 2 && is_blob(row.get(1), name) {
        integer(row.get(0))
    } else {
        None
    }
}

/// Returns the CID in the row, if it is a root's.
fn root_in(row: &Row) -> Option<Cid>
    ensures { MatchOption result ((c : _) → ¬ IsRootIn row.now c) (IsRootIn row.now) }
{
    if row.len() != 2 || !matches!(row.get(0), ValueRef::Int(_)) {
        return None;
    }
    match row.get(1) {
        ValueRef::Blob(bytes) => Cid::try_from(bytes).ok(),
        _ => None,
    }
}

/// Returns the roots, in the order of their numbers; an empty list if there is no such table, and
/// `None` if a row is not a root's.
pub fn list<S: Store>(
    alloc: Global,
    store: &mut S,
    row: &mut Row,
) -> Result<Option<Vec<Cid>>, StoreError>
    ensures ok { IfOk result (λ o. IsClean (S.Store.view store.new)
        → MatchOption o ((names : _) → ¬ AreRoots ((S.Store.view store.old).trees root_tree) names)
        (λ v. AreRoots ((S.Store.view store.old).trees root_tree) v.items)) }
    ensures ends { EndsOnRows S.Store OnlyReads ⊥ result store.old store.new }
{
    let mut names = Vec::new(alloc);
    row.clear();
    store.seek(CURSOR, ROOTS, row, Direction::Forward)?;
    'rows: for _count in 0..u64::MAX {
        if !store.next(CURSOR, row)? {
            return Ok(Some(names));
        }
        let Some(name) = root_in(row) else {
            return Ok(None);
        };
        names.push(name)?;
    }
    // No sound store has this many rows.
    Err(StoreError::OutOfMemory)
}

/// Returns the number of the first row of the name, if there is one.
fn find<S: Store>(store: &mut S, row: &mut Row, name: &[u8]) -> Result<Option<i64>, StoreError>
    ensures ok { IfOk result (λ o. IsClean (S.Store.view store.new)
        → FindsRoot ((S.Store.view store.old).trees root_tree) name.now o) }
    ensures ends { EndsOnRows S.Store OnlyReads ⊥ result store.old store.new }
{
    row.clear();
    store.seek(CURSOR, ROOTS, row, Direction::Forward)?;
    'rows: for _count in 0..u64::MAX {
        if !store.next(CURSOR, row)? {
            return Ok(None);
        }
        if let Some(id) = number_in(row, name) {
            return Ok(Some(id));
        }
    }
    // No sound store has this many rows.
    Err(StoreError::OutOfMemory)
}

/// Appends a row of the name after the others.
pub fn append<S: Store>(store: &mut S, row: &mut Row, name: &[u8]) -> Result<Added, StoreError>
    requires table { HasTable S.Store root_tree store.old }
    ensures ok { IfOk result (λ added. IsClean (S.Store.view store.new)
        → AppendsRoot ((S.Store.view store.old).trees root_tree) ((S.Store.view store.new).trees root_tree)
        name.now added) }
    ensures ends { EndsOnRows S.Store (WritesIn IsOfRoots)
        (IsRootTooLong (S.Store.view store.old).reals name.now)
        result store.old store.new }
{
    let Some(id) = free_number(store, ROOTS, row)? else {
        return Ok(Added::NoNumber);
    };
    put(store, row, id, name)?;
    Ok(Added::New)
}

/// Writes the row with this number.
fn put<S: Store>(store: &mut S, row: &mut Row, id: i64, name: &[u8]) -> Result<(), StoreError>
    requires table { HasTable S.Store root_tree store.old }
    ensures ok { OnOk result (IsClean (S.Store.view store.new)
        → (S.Store.view store.new).trees root_tree
        ≡ put_row (root_row id name.now) ((S.Store.view store.old).trees root_tree)) }
    ensures ends { EndsOnRows S.Store (WritesIn IsOfRoots)
        (IsRootTooLong (S.Store.view store.old).reals name.now)
        result store.old store.new }
{
    row.clear();
    row.push(ValueRef::Int(id))?;
    row.push(ValueRef::Blob(name))?;
    store.put(ROOTS, row)
}

/// Removes each row of the name. Returns whether there was one.
pub fn take<S: Store>(store: &mut S, row: &mut Row, name: &[u8]) -> Result<bool, StoreError>
    requires roots { MayHaveRoots S.Store store.old }
    ensures ok { IfOk result (λ taken. IsClean (S.Store.view store.new)
        → TakesRoot ((S.Store.view store.old).trees root_tree) ((S.Store.view store.new).trees root_tree)
        name.now taken) }
    ensures ends { EndsOnRows S.Store (WritesIn IsOfRoots) ⊥ result store.old store.new }
{
    let mut taken = false;
    'rows: for _count in 0..u64::MAX {
        if !take_first(store, row, name)? {
            return Ok(taken);
        }
        taken = true;
    }
    // No sound store has this many rows.
    Err(StoreError::OutOfMemory)
}

/// Removes the first row of the name, and returns whether there was one.
fn take_first<S: Store>(store: &mut S, row: &mut Row, name: &[u8]) -> Result<bool, StoreError>
    requires roots { MayHaveRoots S.Store store.old }
    ensures ok { IfOk result (λ taken. IsClean (S.Store.view store.new)
        → TakesOutRoot ((S.Store.view store.old).trees root_tree) ((S.Store.view store.new).trees root_tree)
        name.now taken) }
    ensures ends { EndsOnRows S.Store (WritesIn IsOfRoots) ⊥ result store.old store.new }
{
    let Some(id) = find(store, row, name)? else {
        return Ok(false);
    };
    delete(store, id)?;
    Ok(true)
}

/// Removes the row with the number.
fn delete<S: Store>(store: &mut S, id: i64) -> Result<(), StoreError>
    requires table { HasTable S.Store root_tree store.old }
    ensures ok { OnOk result (IsClean (S.Store.view store.new)
        → (S.Store.view store.new).trees root_tree
        ≡ without_rowid id ((S.Store.view store.old).trees root_tree)) }
    ensures ends { EndsOnRows S.Store (WritesIn IsOfRoots) ⊥ result store.old store.new }
{
    store.delete(ROOTS, id)
}
