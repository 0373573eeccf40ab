//! What the C library does for its calls: answers as numbers, with links and tokens in the caller's
//! memory. It allocates nothing.
#![tactic(auto)]

mod cid;
mod code;
mod compact;
mod find;
mod header;
mod judge;
pub mod laws;
mod links;
mod name;
mod node;
mod section;
mod span;
mod spell;
mod tape;
mod told;
mod walk;

pub use cid::{put_cid_of_text, put_cid_text, put_front};
pub use code::{check, kind_code, refusal_code};
pub use compact::{CompactToken, put_compact_tape};
pub use find::{put_followed, put_found, put_part};
pub use header::put_header;
pub use links::put_links;
pub use name::name_of;
pub use node::{put_from_node, put_node_links, put_to_node};
pub use section::{judge_named, judge_section};
pub use span::put_span;
pub use spell::spell_tape;
pub use tape::{Token, put_front_tape, put_tape};
pub use walk::{CarWalk, next_of_car};
