//! Enums: one for each way to tell variants apart, as docs/TYPES.md lists them.

use crate::types::Plain;
use serde::{Deserialize, Serialize};
use types_serde::{ByteBuf, Link};

/// Each kind of variant, with other names.
#[derive(Drop, Serialize, Deserialize)]
#[serde(rename_all = "snake_case", rename_all_fields = "camelCase")]
pub enum Shape {
    Dot,
    Circle(u32),
    Line(i8, i8),
    TurnLeft { by_degrees: u16 },
}

#[derive(Drop, PartialEq, Eq, PartialOrd, Ord, Serialize, Deserialize)]
pub enum Side {
    Left,
    Right,
}

/// An enum whose variant is identified by a field beside its data.
#[derive(Drop, Serialize, Deserialize)]
#[serde(tag = "t", content = "c")]
pub enum Adjacent {
    Unit,
    Two(u8, u8),
    Whole(Plain),
}

/// An enum whose variant is identified by a field among its data: that of a struct, or a link.
#[derive(Drop, Serialize, Deserialize)]
#[serde(tag = "type")]
pub enum Tagged {
    Empty,
    Whole(Plain),
    Pinned { cid: Link },
    #[serde(other)]
    Unknown,
}

/// An enum without a tag: bytes are tried before a link.
#[derive(Drop, Serialize, Deserialize)]
#[serde(untagged)]
pub enum Either {
    Octets(ByteBuf),
    Pinned(Link),
    Pair(Link, u8),
}
