//! What programs share: the lines of a file, of a block, of a path's end and of an IPFS file, and
//! the blocks of a CAR file, taken section by section or held in memory.
#![tactic(auto)]

mod at;
mod codec;
mod content;
mod data;
mod end;
mod entries;
mod entry;
mod file;
mod file_names;
mod holding;
pub mod laws;
mod line;
mod names;
mod proof;
mod raw;
mod stop;
mod take;
mod verdict;

pub use at::{Asked, say_asked, split_path, write_asked};
pub use codec::codec_name;
pub use content::{MOST_DEPTH, begin_content, say_block, say_content};
pub use data::{Answer, fault_place_line, no_block_answer, say_shown, shown};
pub use end::{end_told, say_end};
pub use entries::{Listed, listed_stored, say_entries};
pub use entry::{entry_line, keep_words, known_words, words_stored};
pub use file::say_file;
pub use file_names::{NamesEnd, NoEntry, entry_stored, find_named, names_line};
pub use holding::{Held, Kept, held_of, is_there};
pub use line::{
    Said, line_of, listed_line, missing_line, missing_lines, named_line, refused_line, root_lines,
    say, say_both,
};
pub use names::{fault_name, no_cid_line, pb_cause_name};
pub use proof::say_proof;
pub use raw::say_raw;
pub use stop::{Stop, is_of_file, stop_line, take_stored};
pub use take::{Ended, fault_line, input_over, take_input, take_sections};
pub use verdict::{is_well, verdict_line, verdict_words};
