//! What the C library that takes memory does for its calls: DAG-JSON from and to blocks;
//! repositories (AT Protocol), their commits, and files that prove a record; and the frames of a
//! host's stream.
#![tactic(auto)]

mod answer;
mod call;
mod code;
mod event_told;
mod frame;
mod json;
mod known;
mod told;
mod verify;

pub use answer::{Made, commit_answer, proof_answer, repo_answer};
pub use call::{put_commit, put_proof, put_repo};
pub use frame::place_frame;
pub use json::{put_block, put_json};
pub use verify::put_event;
