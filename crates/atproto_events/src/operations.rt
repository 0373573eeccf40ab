//! The operations of an event, as changes to records.

ghost use Rattle.std.specs.Prelude.{◌≡◌, map, IfOk, MatchBool, MatchResult};
ghost use Rattle.std.specs.List.{AllByRecursion};
ghost use Rattle.atproto_mst.specs.Changes.{change_of, changes};
ghost use Rattle.atproto_events.specs.Operations.{record_before, HasForm, change_of_op, ChangesRefused};

use crate::refusal::EventError;
use atproto_mst::Change;
use ipld_tree::Cid;
use std::alloc::{AllocError, Global};
use types_events::{Action, RepoOp};

/// Returns the record that the path had before the operation.
fn record_before(op: &RepoOp) -> Option<Cid>
    ensures { result ≡ record_before op.now }
{
    match &op.prev {
        Some(prev) => *prev,
        None => None,
    }
}

/// Returns whether the operation has exactly the records that its action needs.
fn has_form(op: &RepoOp) -> bool
    ensures { MatchBool result (HasForm op.now) (¬ HasForm op.now) }
{
    let old = record_before(op);
    match op.action {
        Action::Create => old.is_none() && op.cid.is_some(),
        Action::Update => old.is_some() && op.cid.is_some(),
        Action::Delete => old.is_some() && op.cid.is_none(),
    }
}

/// Converts the operation to a change.
fn change_of_op(alloc: Global, op: &RepoOp) -> Result<Change, AllocError>
    ensures { IfOk result (λ change. change_of change ≡ change_of_op op.now) }
{
    let key = op.path.as_str().as_bytes().to_vec(alloc)?;
    Ok(Change {
        key,
        old: record_before(op),
        new: op.cid,
    })
}

/// Converts the operations to changes, in their order.
pub(crate) fn changes_of(alloc: Global, ops: &[RepoOp]) -> Result<Vec<Change>, EventError>
    ensures { MatchResult result
        (λ done. AllByRecursion HasForm ops.now × (changes done.items ≡ map change_of_op ops.now))
        (ChangesRefused ops.now) }
{
    let mut done = Vec::new(alloc);
    for op in ops {
        if !has_form(op) {
            return Err(EventError::OtherForm);
        }
        let Ok(change) = change_of_op(alloc, op) else {
            return Err(EventError::OutOfMemory);
        };
        if done.push(change).is_err() {
            return Err(EventError::OutOfMemory);
        }
    }
    Ok(done)
}
