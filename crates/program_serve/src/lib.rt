//! A store that serves another program: it reads requests from an input, one after the other, and
//! writes a reply to each to an output.
#![tactic(auto)]

mod answer;
mod asked;
mod file;
mod give;
mod heard;
mod reply;
mod serve;
mod word;

pub use answer::answer_text;
pub use asked::{Asked, Request, asked_of};
pub use file::{answer_bad, answer_export, answer_import, refuse_file};
pub use give::reply_to;
pub use heard::{Heard, Pause, hear};
pub use reply::Reply;
pub use serve::answer_requests;
pub use word::{Word, word_of};
