//! What `dagcar` writes of a repository (AT Protocol): its records, its commit, and the file that
//! proves a record.
#![tactic(auto)]

mod commit;
mod commit_words;
mod differing;
mod json;
mod key;
pub mod laws;
mod proof;
mod record;
mod records;
mod repository;
mod words;

pub use commit::{CommitFound, read_commit, write_commit};
pub use commit_words::{CommitAsked, CommitWords, commit_words_of};
pub use differing::{push_name, write_changes};
pub use json::write_records_json;
pub use key::{named_key, push_key};
pub use proof::{record_proof, write_record_proof};
pub use record::write_record;
pub use records::write_records;
pub use repository::{first_root, read_file};
pub use words::{append_answer, cause_text, name_fault_line, repo_line, told_alone, tree_line};
