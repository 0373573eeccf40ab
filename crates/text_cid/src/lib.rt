//! CIDs as text: base32 for version 1, base58btc for version 0 (multibase; CID specification).
#![tactic(auto)]

mod base;
mod base58;
mod error;
mod groups;
pub mod laws;
mod read;
mod symbols;
mod write;

pub use base::Base;
pub use error::CidTextError;
pub use read::cid_from_text;
pub use write::{CidText, cid_text};
