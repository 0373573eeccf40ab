//! What the programs share: why a run ends before its input does, bytes to any writer, and the
//! words of a call.
#![tactic(auto)]

mod fault;
mod output;
mod words;

pub use fault::ToolError;
pub use output::{give_up, write_all};
pub use words::arguments;
