//! The rows of a database that stores blocks: its trees, and the calls on their rows.
#![tactic(auto)]

pub mod entries;
pub mod roots;
pub mod survey;
