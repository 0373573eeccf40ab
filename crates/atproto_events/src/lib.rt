//! Events of an AT Protocol repository host: the frames of its stream (`subscribeRepos`), and
//! commits verified from them. The operations of a commit are undone on the nodes that its frame
//! has.
#![tactic(auto)]

mod blocks;
mod body;
mod commit_root;
mod error;
mod frame;
mod frame_error;
mod kind;
pub mod laws;
mod open;
mod operations;
mod pieces;
mod refusal;
mod root;
mod steps;
mod undo;
mod verify;

pub use atproto_mst::{Change, Commit, RepoError};
pub use blocks::EventBlocks;
pub use body::{CommitFrame, Frame, SyncFrame};
pub use error::UndoError;
pub use frame::{FrameParts, read_frame, read_parts, split_frame};
pub use frame_error::FrameError;
pub use kind::Kind;
pub use refusal::EventError;
pub use types_events::{
    AccountEvent, Action, CommitEvent, ErrorEvent, IdentityEvent, InfoEvent, RepoOp, SyncEvent,
};
pub use undo::undo_changes;
pub use verify::{Known, Verified, verify_event};
