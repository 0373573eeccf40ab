//! The types of repository.ipldsch, by ./dagcbor-types.
#![tactic(auto)]

mod repository;

pub use repository::{Commit, Did, Entry, Node, UnsignedCommit};
