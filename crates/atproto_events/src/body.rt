//! The bodies of frames.

ghost use Rattle.std.specs.Prelude.{MatchResult};
ghost use Rattle.dagcbor_core.specs.Steps.{default_steps};
ghost use Rattle.dagcbor_read.specs.Whole.{IsWhole, HoldsNoValue};
ghost use Rattle.atproto_events.specs.Bodies.{IsCommitBody, IsSyncBody, IsBody, IsNoBody, BodyRefused};
ghost use Rattle.atproto_events.specs.declared.kind.Kind.TheVariants as kinds;

use crate::blocks::EventBlocks;
use crate::frame_error::FrameError;
use crate::kind::Kind;
use dagcbor_core::DecodeError;
use dagcbor_decode::check_slice;
use dagcbor_read::{Deserialize, from_slice};
use std::alloc::Global;
use types_events::{AccountEvent, CommitEvent, ErrorEvent, IdentityEvent, InfoEvent, SyncEvent};

/// A commit, and the CAR file in its event.
#[derive(Debug, Drop)]
pub struct CommitFrame<'a> {
    pub event: CommitEvent,
    pub blocks: &'a [u8],
}

/// A repository's current state, and the CAR file with its commit.
#[derive(Debug, Drop)]
pub struct SyncFrame<'a> {
    pub event: SyncEvent,
    pub blocks: &'a [u8],
}

/// A decoded frame.
#[derive(Debug, Drop)]
pub enum Frame<'a> {
    Commit(CommitFrame<'a>),
    Sync(SyncFrame<'a>),
    Identity(IdentityEvent),
    Account(AccountEvent),
    Info(InfoEvent),
    /// An error, with which the host ends the stream.
    Error(ErrorEvent),
    /// A kind with another name, whose body is any item.
    Other(String),
}

/// Decodes the whole body as a value of this type.
fn value_of<'a, T: Deserialize<'a>>(alloc: Global, body: &'a [u8]) -> Result<T, FrameError>
    ensures { MatchResult result (λ v. IsWhole T.shape default_steps body.now (T.meaning v))
        (BodyRefused (HoldsNoValue T.shape default_steps body.now)) }
{
    match from_slice::<T>(alloc, body) {
        Ok(value) => Ok(value),
        Err(error) => match error {
            DecodeError::OutOfMemory => Err(FrameError::OutOfMemory),
            _ => Err(FrameError::NoBody(error)),
        },
    }
}

/// Decodes the body as a commit.
fn commit_of(alloc: Global, body: &[u8]) -> Result<CommitFrame<'_>, FrameError>
    ensures { MatchResult result (IsCommitBody body.now)
        (BodyRefused (IsNoBody kinds.Commit body.now)) }
{
    let event = value_of::<CommitEvent>(alloc, body)?;
    let found = value_of::<EventBlocks>(alloc, body)?;
    Ok(CommitFrame {
        event,
        blocks: found.blocks.0,
    })
}

/// Decodes the body as a sync.
fn sync_of(alloc: Global, body: &[u8]) -> Result<SyncFrame<'_>, FrameError>
    ensures { MatchResult result (IsSyncBody body.now)
        (BodyRefused (IsNoBody kinds.Sync body.now)) }
{
    let event = value_of::<SyncEvent>(alloc, body)?;
    let found = value_of::<EventBlocks>(alloc, body)?;
    Ok(SyncFrame {
        event,
        blocks: found.blocks.0,
    })
}

/// Returns a frame of another kind, if the body is an item.
fn other_of(name: String, body: &[u8]) -> Result<Frame<'_>, FrameError>
    ensures { MatchResult result (IsBody (kinds.Other name) body.now)
        (BodyRefused (IsNoBody (kinds.Other name) body.now)) }
{
    match check_slice(body) {
        Ok(_kind) => Ok(Frame::Other(name)),
        Err(error) => Err(FrameError::NoBody(error)),
    }
}

/// Decodes the body as a frame of this kind.
pub(crate) fn read_body(alloc: Global, kind: Kind, body: &[u8]) -> Result<Frame<'_>, FrameError>
    ensures { MatchResult result (IsBody kind body.now) (BodyRefused (IsNoBody kind body.now)) }
{
    match kind {
        Kind::Commit => Ok(Frame::Commit(commit_of(alloc, body)?)),
        Kind::Sync => Ok(Frame::Sync(sync_of(alloc, body)?)),
        Kind::Identity => Ok(Frame::Identity(value_of(alloc, body)?)),
        Kind::Account => Ok(Frame::Account(value_of(alloc, body)?)),
        Kind::Info => Ok(Frame::Info(value_of(alloc, body)?)),
        Kind::Error => Ok(Frame::Error(value_of(alloc, body)?)),
        Kind::Other(name) => other_of(name, body),
    }
}
