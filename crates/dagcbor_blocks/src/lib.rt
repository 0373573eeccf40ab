//! Stores blocks of DAG-CBOR under their names.
//!
//! Stores two blocks, and reads the first back (`src/tests/store.rt` of `crates/tests_car`):
//!
//! ```rust
//! let mut blocks = Blocks::new(alloc);
//! let name = blocks.put(&numbers(alloc)?)?;
//! let text = blocks.put(&"a")?;
//! let Some(back) = blocks.get::<Vec<u8>>(&name)? else {
//!     return Err(Fail::new("no block"));
//! };
//! assert_eq!(rt; back.as_slice(), [1, 2, 3].as_slice());
//! ```
#![tactic(auto)]

mod blocks;
mod bytes;
mod error;
pub mod laws;
mod name;
mod put_error;
mod reach;
mod read_car;
mod store;
mod tree_error;
mod write_car;
mod write_tree;

pub use error::BlockError;
pub use files_car::ReadCarError;
pub use ipld_links::Unsound;
pub use name::name_of;
pub use put_error::PutBlockError;
pub use store::Blocks;
pub use tree_error::WriteTreeError;
