//! The lines that `dagcar event` writes about frames of a repository host's stream (AT Protocol).
#![tactic(auto)]

mod causes;
mod command;
mod frame;
pub mod laws;
mod lines;
mod seen;
mod stream;
mod words;

pub use command::run_events;
pub use stream::events_said;
pub use words::{EventWords, event_of};
