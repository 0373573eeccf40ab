//! A durable block store: blocks under their CIDs in one file, a database that sqlite3 can read.
#![tactic(auto)]

mod car_error;
mod collect;
mod error;
pub mod laws;
mod lost;
mod open;
mod reach;
mod read_car;
mod roots;
mod store;
#[cfg(test)]
mod tests;
mod value;
mod walk;
mod write_car;
mod write_tree;

pub use car_error::{ReadCarError, WriteCarError, WriteTreeError};
pub use error::StoreRefusal;
pub use ipld_links::{Reached, Unsound};
pub use sqlite_disk::{Unknown, Wary};
pub use sqlite_std_file::FileFrom;
pub use sqlite_store::FileStore;
pub use sqlite_trees::store::{Alter, Store};
pub use store::BlockStore;
pub use value::{GetError, PutError};
