//! The output of the program `dagstore` about the blocks in a durable store.
#![tactic(auto)]

mod answer;
mod at;
mod block;
mod change;
mod check;
mod command;
mod directory;
mod export;
mod fault;
mod file;
mod import;
mod lacking;
mod line;
mod list;
mod progress;
mod refusal;
mod roots;
mod taken;
mod way;
mod words;

pub use answer::{
    answer_add_roots, answer_at, answer_cat, answer_check, answer_collect, answer_count,
    answer_drop_roots, answer_export, answer_get, answer_has, answer_list, answer_ls, answer_put,
    answer_remove, answer_roots, answer_tree,
};
pub use at::write_at;
pub use block::{NO_BLOCK, count_blocks, get_block, has_block};
pub use change::{check_put, collect_blocks, collect_meant, name_as, put_block, remove_blocks};
pub use check::check_blocks;
pub use command::{Asking, Beginning, Command, Words, codec_of, words_of};
pub use directory::write_listing;
pub use export::{export_blocks, export_meant, write_tree};
pub use fault::Fault;
pub use file::write_file;
pub use import::import_blocks;
pub use lacking::check_store;
pub use list::list_blocks;
pub use progress::Progress;
pub use refusal::{end, tell_refusal, tell_tool, write_lines};
pub use roots::{NO_ROOTS, add_roots, drop_roots, list_roots};
pub use taken::{Taken, lines_of};
pub use way::gather_way;
pub use words::{HELP, NO_STORE, NOT_READ, NOT_WRITTEN, OUT_OF_MEMORY, USAGE, VERSION};
