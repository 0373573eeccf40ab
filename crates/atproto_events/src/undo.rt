//! Undoing changes.

ghost use Rattle.std.specs.Prelude.{IfOk, OnOk, IfErr};
ghost use Rattle.ipld_links.specs.Reaching.{stored_in};
ghost use Rattle.atproto_mst.specs.Changes.{changes};
ghost use Rattle.atproto_events.specs.Doing.{LeadsFrom};
ghost use Rattle.atproto_events.specs.Pieces.{pieces};
ghost use Rattle.atproto_events.specs.Refusing.{UndoRefused};
ghost use Rattle.atproto_events.specs.Undone.{ArePlaced, StepsBackAll, StepsFault};

use crate::error::UndoError;
use crate::open::open_tree;
use crate::pieces::Piece;
use crate::root::root_of_pieces;
use crate::steps::undo_change;
use atproto_mst::Change;
use ipld_tree::Cid;
use std::alloc::Global;
use std::collections::BTreeMap;

/// Returns the root of the tree from which these changes, in order, lead to the tree of this root.
/// Only those nodes of that tree on which the answer depends must be stored.
pub fn undo_changes(
    alloc: Global,
    blocks: &BTreeMap<Cid, Vec<u8>>,
    root: &Cid,
    done: &[Change],
) -> Result<Cid, UndoError>
    ensures undone { IfOk result
        (λ old. LeadsFrom (stored_in blocks.now) old (changes done.now) root.now) }
    ensures refused { IfErr result
        (UndoRefused (stored_in blocks.now) root.now (changes done.now)) }
{
    let mut all = open_tree(alloc, blocks, root)?;
    undo_all(alloc, &mut all, done)?;
    root_of_pieces(alloc, &all)
}

/// Undoes the changes, the last first.
fn undo_all(alloc: Global, all: &mut Vec<Piece>, done: &[Change]) -> Result<(), UndoError>
    requires { ArePlaced (pieces all.old.items) }
    ensures undone { OnOk result
        (StepsBackAll (changes done.now) (pieces all.old.items) (pieces all.new.items)) }
    ensures refused { IfErr result (StepsFault (changes done.now) (pieces all.old.items)) }
{
    let mut left = done.len();
    while left > 0 {
        left -= 1;
        undo_change(alloc, all, &done[left])?;
    }
    Ok(())
}
