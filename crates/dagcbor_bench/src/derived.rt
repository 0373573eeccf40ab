//! The record with a derive, and its fields out of key order.

use serde::{Deserialize, Serialize};
use types_serde::Link;

#[derive(Drop, Serialize, Deserialize)]
pub struct Derived {
    link: Link,
    name: String,
    seq: u32,
    tags: Vec<u16>,
}
