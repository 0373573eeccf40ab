//! Verifying a commit event.

ghost use Rattle.std.specs.Prelude.{◌≡◌, ◌≢◌, IfErr, IfOk, MatchBool, MatchResult, string_bytes};
ghost use Rattle.ipld_links.specs.Reaching.{stored_in};
ghost use Rattle.atproto_mst.specs.Changes.{changes};
ghost use Rattle.atproto_events.specs.Doing.{LeadsFrom};
ghost use Rattle.atproto_events.specs.Verifying.{IsWithinLimits, LimitsRefused, ComesAfter, root_said, root_known};
ghost use Rattle.atproto_events.specs.Verifying.{is_first, HoldsSections, FileRefused, IsCommitOf, CommitRefusedFor};
ghost use Rattle.atproto_events.specs.Verifying.{LeadRefused, IsVerifiedEvent, ContentRefused, EventRefused};

use crate::body::CommitFrame;
use crate::commit_root::root_before;
use crate::error::UndoError;
use crate::operations::changes_of;
use crate::refusal::EventError;
use crate::undo::undo_changes;
use atproto_mst::{Change, Commit, RepoError, spell_unsigned, stored_commit};
use files_car::{CarBlocks, CarError, read_blocks};
use ipld_tree::Cid;
use std::alloc::Global;
use std::collections::BTreeMap;
use types_events::CommitEvent;

/// The most operations that an event may have.
const MOST_OPERATIONS: usize = 200;

/// The most bytes of blocks that an event may have.
const MOST_BYTES: usize = 2_000_000;

/// What is known of a repository: the root of its tree, and its revision.
#[derive(Clone, Copy, Debug)]
pub struct Known<'a> {
    pub root: Cid,
    pub rev: &'a str,
}

/// A verified event.
#[derive(Debug, Drop)]
pub struct Verified {
    /// The commit after the event.
    pub commit: Commit,
    /// The bytes that the commit's signature signs. The caller checks the signature and its key.
    pub signed: Vec<u8>,
    /// The root of the tree before the event.
    pub before: Cid,
    /// The changes of the operations, in order.
    pub changes: Vec<Change>,
}

/// Checks that the event contains everything, and is within the limits.
fn check_limits(frame: &CommitFrame<'_>) -> Result<(), EventError>
    ensures { MatchResult result (λ _. IsWithinLimits frame.now) (LimitsRefused frame.now) }
{
    if frame.event.too_big {
        return Err(EventError::TooBig);
    }
    if frame.event.rebase {
        return Err(EventError::Rebase);
    }
    if frame.event.ops.len() > MOST_OPERATIONS {
        return Err(EventError::ManyOperations);
    }
    if frame.blocks.len() > MOST_BYTES {
        return Err(EventError::ManyBytes);
    }
    Ok(())
}

/// Returns whether the revision comes after the known one, if there is one.
fn comes_after(rev: &str, known: &Option<Known<'_>>) -> bool
    ensures { MatchBool result (ComesAfter rev.now known.now) (¬ ComesAfter rev.now known.now) }
{
    match known {
        Some(known) => known.rev.as_bytes().cmp(rev.as_bytes()).is_lt(),
        None => true,
    }
}

/// Returns the known root.
fn root_known(known: &Option<Known<'_>>) -> Option<Cid>
    ensures { result ≡ root_known known.now }
{
    match known {
        Some(known) => Some(known.root),
        None => None,
    }
}

/// Returns the root that the event states as the one before.
fn root_said(event: &CommitEvent) -> Option<Cid>
    ensures { result ≡ root_said event.now }
{
    match &event.prev_data {
        Some(root) => *root,
        None => None,
    }
}

/// Returns whether the first root is the commit.
fn is_first(roots: &[Cid], commit: &Cid) -> bool
    ensures { result ≡ is_first roots.now commit.now }
{
    match roots.first() {
        Some(root) => *root == *commit,
        None => false,
    }
}

/// Reads the blocks of the event's CAR file, and checks that its first root is the commit.
fn blocks_of(alloc: Global, frame: &CommitFrame<'_>) -> Result<BTreeMap<Cid, Vec<u8>>, EventError>
    ensures { MatchResult result (λ blocks. HoldsSections frame.now (stored_in blocks))
        (FileRefused frame.now) }
{
    match read_blocks(alloc, frame.blocks) {
        Ok(CarBlocks { roots, blocks }) => {
            if !is_first(&roots, &frame.event.commit) {
                return Err(EventError::OtherCommit);
            }
            Ok(blocks)
        }
        Err(error) => match error {
            CarError::OutOfMemory => Err(EventError::OutOfMemory),
            _ => Err(EventError::NoCar(error)),
        },
    }
}

/// Returns whether the two texts are equal.
fn are_same(first: &String, second: &String) -> bool
    ensures { MatchBool result (string_bytes first.now ≡ string_bytes second.now)
        (string_bytes first.now ≢ string_bytes second.now) }
{
    first.as_str() == second.as_str()
}

/// Reads the event's commit, and checks that it has the event's repository and revision.
fn commit_of(
    alloc: Global,
    event: &CommitEvent,
    blocks: &BTreeMap<Cid, Vec<u8>>,
) -> Result<Commit, EventError>
    ensures { MatchResult result (IsCommitOf event.now (stored_in blocks.now))
        (CommitRefusedFor event.now (stored_in blocks.now)) }
{
    let commit = match stored_commit(alloc, blocks, &event.commit) {
        Ok(commit) => commit,
        Err(error) => match error {
            RepoError::OutOfMemory => return Err(EventError::OutOfMemory),
            _ => return Err(EventError::NoCommit(error)),
        },
    };
    if !are_same(&commit.did, &event.repo) {
        return Err(EventError::OtherRepository);
    }
    if !are_same(&commit.rev, &event.rev) {
        return Err(EventError::OtherRevision);
    }
    Ok(commit)
}

/// Checks that the changes lead from the root before to the commit's tree.
fn check_changes(
    alloc: Global,
    blocks: &BTreeMap<Cid, Vec<u8>>,
    commit: &Commit,
    done: &[Change],
    before: &Cid,
) -> Result<(), EventError>
    ensures { MatchResult result
        (λ _. LeadsFrom (stored_in blocks.now) before.now (changes done.now) commit.now.data)
        (LeadRefused (stored_in blocks.now) before.now (changes done.now) commit.now.data) }
{
    match undo_changes(alloc, blocks, &commit.data, done) {
        Ok(old) => {
            if old != *before {
                return Err(EventError::LeadsElsewhere);
            }
            Ok(())
        }
        Err(error) => match error {
            UndoError::OutOfMemory => Err(EventError::OutOfMemory),
            _ => Err(EventError::NotUndone(error)),
        },
    }
}

/// Verifies an event that is within the limits against its blocks.
fn verify_content(
    alloc: Global,
    frame: &CommitFrame<'_>,
    known: &Option<Known<'_>>,
) -> Result<Verified, EventError>
    requires { IsWithinLimits frame.now }
    ensures verified { IfOk result (IsVerifiedEvent frame.now known.now) }
    ensures refused { IfErr result (ContentRefused frame.now known.now) }
{
    if !comes_after(frame.event.rev.as_str(), known) {
        return Err(EventError::NotAfter);
    }
    let before = root_before(root_said(&frame.event), root_known(known))?;
    let changes = changes_of(alloc, &frame.event.ops)?;
    let blocks = blocks_of(alloc, frame)?;
    let commit = commit_of(alloc, &frame.event, &blocks)?;
    check_changes(alloc, &blocks, &commit, &changes, &before)?;
    match spell_unsigned(alloc, &commit) {
        Ok(signed) => Ok(Verified {
            commit,
            signed,
            before,
            changes,
        }),
        Err(_) => Err(EventError::OutOfMemory),
    }
}

/// Verifies the event against what is known of the repository, if anything is: its operations lead
/// from the root before to its commit. The caller must check that the account's key signed the
/// commit.
pub fn verify_event(
    alloc: Global,
    frame: &CommitFrame<'_>,
    known: &Option<Known<'_>>,
) -> Result<Verified, EventError>
    ensures verified { IfOk result (IsVerifiedEvent frame.now known.now) }
    ensures refused { IfErr result (EventRefused frame.now known.now) }
{
    check_limits(frame)?;
    verify_content(alloc, frame, known)
}
