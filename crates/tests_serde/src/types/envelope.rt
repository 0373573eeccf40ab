//! A type whose fields are any data, and links, data and bytes in types of their own.

use ipld_tree::{Cid, Ipld};
use serde::{Deserialize, Serialize};
use types_serde::{Any, Link};

#[derive(Drop, Serialize, Deserialize)]
pub struct Envelope {
    pub body: Any,
    #[serde(with = "types_serde::as_link")]
    pub cid: Cid,
    #[serde(with = "types_serde::as_any")]
    pub data: Ipld,
    pub link: Link,
    #[serde(with = "types_serde::as_bytes")]
    pub raw: Vec<u8>,
}
