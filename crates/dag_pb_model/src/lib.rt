//! Converts blocks of DAG-PB to their data model, as DAG-CBOR, and back. Only `model_of` allocates.
#![tactic(auto)]

mod error;
mod fill;
mod fill_node;
pub mod laws;
mod measure;
mod measure_links;
mod model;
mod node;
mod node_error;
mod open;
mod read;

pub use error::ModelError;
pub use model::{model_of, put_model};
pub use node::put_node;
pub use node_error::NodeError;
