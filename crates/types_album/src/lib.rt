//! The types of album.ipldsch, note.ipldsch, by ./dagcbor-types.
#![tactic(auto)]

mod album;
mod note;

pub use album::{Album, Format, Track};
pub use note::Note;
