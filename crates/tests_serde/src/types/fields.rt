//! Structs: one for each form that a derive supports, as docs/TYPES.md lists them.

use crate::types::Tagged;
use serde::{Deserialize, Serialize};
use types_serde::Any;

#[derive(Drop, Serialize, Deserialize)]
pub struct Unit;

#[derive(Drop, Serialize, Deserialize)]
pub struct Metres(pub u16);

#[derive(Drop, Serialize, Deserialize)]
pub struct Point(pub i8, pub i8);

#[derive(Drop, Serialize, Deserialize)]
#[serde(transparent)]
pub struct Wrapper {
    pub inner: Point,
}

#[derive(Drop, Serialize, Deserialize)]
pub struct Plain {
    pub b: u8,
}

/// Fields with other names, left out, or made.
#[derive(Drop, Serialize, Deserialize)]
#[serde(rename_all = "SCREAMING-KEBAB-CASE", deny_unknown_fields)]
pub struct Renamed {
    pub first_name: u8,
    #[serde(rename = "other", default)]
    pub second: u8,
    #[serde(alias = "old", default = "seven")]
    pub third: u8,
    #[serde(skip)]
    pub fourth: u8,
    #[serde(skip_serializing_if = "Option::is_none")]
    pub fifth: Option<u8>,
}

fn seven() -> u8 {
    7
}

/// Two types that share one map, and any data in it.
#[derive(Drop, Serialize, Deserialize)]
pub struct Flat {
    #[serde(flatten)]
    pub tagged: Tagged,
    pub z: Any,
    #[serde(flatten)]
    pub more: Plain,
}

/// Two fields with the same name that share a map.
#[derive(Drop, Serialize)]
pub struct Twice {
    pub b: u8,
    #[serde(flatten)]
    pub rest: Plain,
}
