//! What `dagcar` does with named files, which it reads by random access.
#![tactic(auto)]

mod answers;
mod at;
mod command;
mod commits;
mod get;
mod index_words;
mod indexes;
pub mod laws;
mod path_words;
mod sections;
mod texts;

pub use at::write_asked_named;
pub use command::{index_of, name_of, run_get, run_index};
pub use commits::{run_commit, run_record_proof, run_records_json};
pub use get::get_named;
pub use index_words::{
    IndexAsked, IndexWords, index_words_of, is_check, run_checked, run_entries, run_inspected,
    run_judged,
};
pub use indexes::{write_checked, write_entries, write_inspected_here, write_judged};
pub use path_words::{PathWords, path_words_of, run_asked};
pub use sections::{run_filter, run_listed, run_merged, run_split};
