//! Why there is no data model.

use dag_pb::PbError;
use thiserror::Error;

/// Why bytes have no data model.
#[derive(Copy, Clone, Debug, PartialEq, Eq, Error)]
pub enum ModelError {
    /// The bytes are not a block of DAG-PB.
    #[error("no DAG-PB: {0}")]
    NoNode(PbError),
    /// The name of a link is not UTF-8, so the data model has no text for it.
    #[error("the name of a link is not UTF-8")]
    NameNotText,
}
