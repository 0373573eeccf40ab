//! UnixFS, the files and directories of IPFS. Reads the message in the data of a DAG-PB node, says
//! what a block is, looks up entries of directories, and reads a file block by block. Only reading
//! a file allocates.
#![tactic(auto)]

mod directory;
mod directory_error;
mod entity;
mod error;
mod field;
mod file_error;
mod kind;
pub mod laws;
mod message;
mod node;
mod part;
mod reader;
mod sizes;
mod totals;
mod varint;
mod wanted;

pub use directory::{check_directory, find_entry};
pub use directory_error::DirectoryError;
pub use entity::{Entity, read_entity};
pub use error::{UnixFsCause, UnixFsError};
pub use file_error::FileError;
pub use kind::Kind;
pub use message::{UnixFs, read_unix_fs};
pub use node::node_data;
pub use reader::FileReader;
pub use sizes::next_size;
pub use wanted::Wanted;
