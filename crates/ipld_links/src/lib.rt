//! Names of blocks, verdicts on blocks under a name, and the blocks that links lead to.
#![tactic(auto)]

mod block;
mod cid_set;
mod held;
mod links;
mod name;
mod names;
mod reach;
mod sound;
mod verdict;

pub use block::{is_block_of, is_item, is_node};
pub use cid_set::CidSet;
pub use held::HeldNames;
pub use links::links_of_block;
pub use name::{DAG_CBOR, DAG_PB, IDENTITY, RAW, SHA2_256, name_of_block};
pub use names::{names_from_slice, names_of_block};
pub use reach::{Reached, Walk, hidden_under, reach_from, reach_known, stored_bytes};
pub use sound::{Unsound, check_block, is_dag_cbor};
pub use verdict::{Verdict, hidden_links, verdict_on, verify};
