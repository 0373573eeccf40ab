//! The Merkle search tree of AT Protocol repositories.
#![tactic(auto)]

mod build;
mod change;
mod commit;
mod diffs;
mod entries;
mod error;
mod find;
mod keys;
pub mod laws;
mod leaves;
mod levels;
mod read;
mod repo;
mod repo_error;
mod rows;
mod sink;
mod skipping;
mod stored;
mod unstored;
mod way;
mod write;

pub use change::{put_entry, remove_entry};
pub use commit::spell_unsigned;
pub use diffs::{Change, diff_entries};
pub use entries::MstEntry;
pub use error::MstError;
pub use find::find_record;
pub use keys::layer_of_key;
pub use read::read_mst;
pub use repo::{Repo, read_repo, stored_commit};
pub use repo_error::RepoError;
pub use sink::NodeSink;
pub use skipping::diff;
pub use types_repository::Commit;
pub use unstored::write_changes;
pub use way::record_way;
pub use write::{mst_root, write_mst};
