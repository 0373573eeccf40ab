//! A walk over the index of names.

ghost use Rattle.std.specs.Prelude.{◌≡◌, ◌↔◌, ◌⊎◌, List, ℕ, MatchBool, length, IsTrue, MatchOption, IfOk};
ghost use Rattle.ipld_tree.specs.Cid.{IsCid};
ghost use Rattle.sqlite_value.specs.declared.value.Value.TheVariants.{Blob};
ghost use Rattle.sqlite_value.specs.Value.{owned};
ghost use Rattle.sqlite_value.specs.Order.{column};
ghost use Rattle.sqlite_trees.specs.View.{IsClean};
ghost use Rattle.sqlite_exec.specs.Calls.{OnlyReads};
ghost use Rattle.store_rows.specs.Ends.{EndsOnRows, HasNames};
ghost use Rattle.store_rows.specs.Rows.{name_tree, IsNameEntry, IsKeyed};

use crate::entries::{CURSOR, NAMES};
use ipld_tree::Cid;
use sqlite_trees::error::StoreError;
use sqlite_trees::store::{Direction, Store};
use sqlite_value::order::is_same;
use sqlite_value::row::Row;
use sqlite_value::value::ValueRef;
use std::alloc::Global;
use std::mem;

/// Returns whether the bytes are the binary form of a CID.
fn is_cid(bytes: &[u8]) -> bool
    ensures { IsTrue result ↔ IsCid bytes.now }
{
    Cid::try_from(bytes).is_ok()
}

/// Returns whether the value is the binary form of a CID.
fn is_name(value: ValueRef<'_>) -> bool
    ensures { IsTrue result ↔ ((name : List ℕ) × (owned value.entry ≡ Blob name) × IsCid name) }
{
    match value {
        ValueRef::Blob(bytes) => is_cid(bytes),
        _ => false,
    }
}

/// Returns whether the row is an entry of the index: the binary form of a CID, and a number.
fn is_entry(row: &Row) -> bool
    ensures { IsTrue result ↔ IsNameEntry row.now }
{
    row.len() == 2 && is_name(row.get(0)) && matches!(row.get(1), ValueRef::Int(_))
}

/// Returns whether the row is an entry of the index, for another name than the last.
fn follows(last: &Row, row: &Row) -> bool
    ensures { MatchBool result
        (IsNameEntry row.now × (column row.now 0 ≡ column last.now 0 → ⊥))
        ((IsNameEntry row.now → ⊥) ⊎ (column row.now 0 ≡ column last.now 0)) }
{
    is_entry(row) && !is_same(row.get(0), last.get(0))
}

/// Returns how many names are listed, or `None` if a row is not an entry, or a name has two.
pub fn survey<S: Store>(
    alloc: Global,
    store: &mut S,
    row: &mut Row,
) -> Result<Option<u64>, StoreError>
    requires names { HasNames S.Store store.old }
    ensures ok { IfOk result (λ o. IsClean (S.Store.view store.new)
        → MatchOption o (IsKeyed ((S.Store.view store.old).trees name_tree) → ⊥)
        (λ n. IsKeyed ((S.Store.view store.old).trees name_tree)
        × (n ≡ length ((S.Store.view store.old).trees name_tree)))) }
    ensures ends { EndsOnRows S.Store OnlyReads ⊥ result store.old store.new }
{
    let mut last = Row::new(alloc);
    row.clear();
    store.seek(CURSOR, NAMES, row, Direction::Forward)?;
    'entries: for count in 0..u64::MAX {
        if !store.next(CURSOR, row)? {
            return Ok(Some(count));
        }
        if !follows(&last, row) {
            return Ok(None);
        }
        mem::swap(row, &mut last);
    }
    // No sound store has this many entries.
    Err(StoreError::OutOfMemory)
}
