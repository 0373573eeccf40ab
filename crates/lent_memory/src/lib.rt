//! Puts bytes and heads into memory that the caller lends. It allocates nothing.
#![tactic(auto)]

mod part;
mod place;

pub use part::{link_length, put_link, put_string, string_length};
pub use place::{head_length, put, put_head};
