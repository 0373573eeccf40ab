//! Changes of partial trees that a program in another language made, and undid or refused.

use crate::cases::{CASES, CHANGES};
use atproto_events::{UndoError, undo_changes};
use atproto_mst::Change;
use files_car::{CarBlocks, read_blocks};
use ipld_tree::Cid;
use std::alloc::Global;
use std::test::Fail;

/// Returns the CID of the bytes, `None` if they are empty.
fn cid_of(bytes: &[u8]) -> Result<Option<Cid>, Fail> {
    if bytes.is_empty() {
        return Ok(None);
    }
    match Cid::try_from(bytes) {
        Ok(cid) => Ok(Some(cid)),
        Err(_) => Err(Fail::from("no CID")),
    }
}

/// Returns the changes of the case of this number.
fn changes_of(alloc: Global, number: usize) -> Result<Vec<Change>, Fail> {
    let mut changes = Vec::new(alloc);
    for row in CHANGES {
        if row.0 == number {
            let key = row.1.as_bytes().to_vec(alloc)?;
            let old = cid_of(row.2)?;
            let new = cid_of(row.3)?;
            changes.push(Change { key, old, new })?;
        }
    }
    Ok(changes)
}

/// Returns the word for the refusal.
fn word(error: &UndoError) -> &'static [u8] {
    match error {
        UndoError::MissingNode(_) => b"missing",
        UndoError::OtherState => b"state",
        _ => b"other",
    }
}

/// Returns whether the root before, or the refusal, is the one that the case expects.
fn is_as_wanted(alloc: Global, number: usize, case: &(&str, &[u8], &[u8])) -> Result<bool, Fail> {
    let Ok(CarBlocks { roots, blocks }) = read_blocks(alloc, case.1) else {
        return Err(Fail::from("no file"));
    };
    let Some(root) = roots.first() else {
        return Err(Fail::from("no root"));
    };
    let changes = changes_of(alloc, number)?;
    match undo_changes(alloc, &blocks, root, &changes) {
        Ok(old) => Ok(old.to_bytes(alloc)?.as_slice() == case.2),
        Err(error) => Ok(word(&error) == case.2),
    }
}

#[test]
fn changes_are_undone(rt: HostRuntime) -> Result<(), Fail> {
    let alloc = rt.alloc();
    for (number, case) in CASES.iter().enumerate() {
        if !is_as_wanted(alloc, number, case)? {
            return Err(Fail::from(case.0));
        }
    }
    Ok(())
}
