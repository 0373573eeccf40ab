//! The types of events.ipldsch, by ./dagcbor-types.
#![tactic(auto)]

mod events;

pub use events::{
    AccountEvent, Action, CommitEvent, ErrorEvent, FrameHeader, IdentityEvent, InfoEvent, RepoOp,
    SyncEvent,
};
