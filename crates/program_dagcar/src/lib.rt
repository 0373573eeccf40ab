//! The program `dagcar`, line by line: judges and lists CAR files, and names, judges, shows and
//! makes blocks.
#![tactic(auto)]

mod answer;
mod block;
mod changes;
mod check;
mod command;
mod device;
mod files;
mod get;
mod help;
mod inspect;
pub mod laws;
mod list;
mod make;
mod names;
mod summary;
mod tree;
mod verify;
mod walk;

pub use answer::{Answering, say_answer};
pub use changes::{changes_of, run_changes};
pub use command::{
    Command, OUT_OF_MEMORY, USAGE, command_of, run, run_command, split_words, status_of,
};
pub use device::OneFault;
pub use get::got;
pub use inspect::run_inspect;
