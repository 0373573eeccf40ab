//! Undoing one change.

ghost use Rattle.std.specs.Prelude.{◌≡◌, ◌<◌, ◌≤◌, length, take, drop, IfOk, OnOk, IfErr};
ghost use Rattle.std.specs.Prelude.{MatchBool};
ghost use Rattle.atproto_mst.specs.Changes.{change_of};
ghost use Rattle.atproto_events.specs.Pieces.{pieces, piece_of, entry_piece};
ghost use Rattle.atproto_events.specs.Undone.{StepsBack, StepFault, ArePlaced};
ghost use Rattle.atproto_events.specs.Undone.{IsOfKey, EndsBefore, BeginsAfter};
ghost use Rattle.atproto_events.specs.declared.error.UndoError.TheVariants.{OutOfMemory};

use crate::error::UndoError;
use crate::open::LONGEST_KEY;
use crate::pieces::{Piece, find_place, next_entry};
use atproto_mst::{Change, layer_of_key};
use ipld_tree::Cid;
use std::alloc::Global;

/// Undoes the change on the pieces: the key must have the record after the change, and then has the
/// one before.
pub(crate) fn undo_change(
    alloc: Global,
    all: &mut Vec<Piece>,
    change: &Change,
) -> Result<(), UndoError>
    requires { ArePlaced (pieces all.old.items) }
    ensures undone { OnOk result
        (StepsBack (change_of change.now) (pieces all.old.items) (pieces all.new.items)) }
    ensures refused { IfErr result (StepFault (change_of change.now) (pieces all.old.items)) }
{
    let place = find_place(all, &change.key);
    let at = next_entry(all, place);
    if is_of_key(all, at, &change.key) {
        return undo_present(all, at, change);
    }
    if place < at {
        return Err(UndoError::MissingNode(all[place].cid));
    }
    undo_absent(alloc, all, at, change)
}

/// Returns whether the piece at this index, if there is one, is an entry with this key.
fn is_of_key(all: &[Piece], at: usize, key: &[u8]) -> bool
    ensures { MatchBool result (IsOfKey key.now at (pieces all.now))
        (¬ IsOfKey key.now at (pieces all.now)) }
{
    match all.get(at) {
        Some(piece) => match &piece.key {
            Some(other) => other.as_slice() == key,
            None => false,
        },
        None => false,
    }
}

/// Undoes a change whose key is that of the piece at this index.
fn undo_present(all: &mut Vec<Piece>, at: usize, change: &Change) -> Result<(), UndoError>
    requires bound { at < length all.old.items }
    requires key { IsOfKey change.now.key.items at (pieces all.old.items) }
    requires placed { ArePlaced (pieces all.old.items) }
    ensures undone { OnOk result
        (StepsBack (change_of change.now) (pieces all.old.items) (pieces all.new.items)) }
    ensures refused { IfErr result (StepFault (change_of change.now) (pieces all.old.items)) }
{
    let Some(now) = change.new else {
        return Err(UndoError::OtherState);
    };
    if all[at].cid != now {
        return Err(UndoError::OtherState);
    }
    match change.old {
        Some(old) => all[at].cid = old,
        None => {
            let _removed = all.remove(at);
        }
    }
    Ok(())
}

/// Undoes a change whose key is absent, and would be inserted at this index.
fn undo_absent(
    alloc: Global,
    all: &mut Vec<Piece>,
    at: usize,
    change: &Change,
) -> Result<(), UndoError>
    requires bound { at ≤ length all.old.items }
    requires front { EndsBefore change.now.key.items (take at (pieces all.old.items)) }
    requires rest { BeginsAfter change.now.key.items (drop at (pieces all.old.items)) }
    ensures undone { OnOk result
        (StepsBack (change_of change.now) (pieces all.old.items) (pieces all.new.items)) }
    ensures refused { IfErr result (StepFault (change_of change.now) (pieces all.old.items)) }
{
    if change.new.is_some() {
        return Err(UndoError::OtherState);
    }
    let Some(old) = change.old else {
        return Ok(());
    };
    let length = change.key.len();
    if length < 1 || length > LONGEST_KEY {
        return Err(UndoError::KeyLength);
    }
    let piece = new_piece(alloc, &change.key, old)?;
    match all.insert(at, piece) {
        Ok(()) => Ok(()),
        Err(_) => Err(UndoError::OutOfMemory),
    }
}

/// Returns a piece of this entry.
fn new_piece(alloc: Global, key: &[u8], cid: Cid) -> Result<Piece, UndoError>
    ensures piece { IfOk result (λ p. piece_of p ≡ entry_piece key.now cid) }
    ensures refused { IfErr result (λ e. e ≡ OutOfMemory) }
{
    let layer = layer_of_key(key);
    let key = key.to_vec(alloc)?;
    Ok(Piece {
        layer,
        key: Some(key),
        cid,
    })
}
