//! Records whose unknown fields are kept.

use crate::types::{Plain, Tagged};
use serde::{Deserialize, Serialize};
use types_serde::{Any, Rest};

/// A post of the AT Protocol. Fields of its record that have no name here are kept.
#[derive(Drop, Serialize, Deserialize)]
#[serde(rename_all = "camelCase")]
pub struct Post {
    #[serde(rename = "$type")]
    pub kind: String,
    pub created_at: String,
    pub text: String,
    #[serde(flatten)]
    pub rest: Rest,
}

/// An enum whose variant is identified by a field, among fields that are kept.
#[derive(Drop, Serialize, Deserialize)]
#[serde(tag = "$type")]
pub enum Record {
    Like {
        subject: String,
        #[serde(flatten)]
        rest: Rest,
    },
    Mark(Rest),
}

/// A post, or anything else.
#[derive(Drop, Serialize, Deserialize)]
#[serde(untagged)]
pub enum Item {
    Post(Post),
    Other(Any),
}

/// A struct, and the rest twice.
#[derive(Drop, Serialize, Deserialize)]
pub struct Shared {
    #[serde(flatten)]
    pub plain: Plain,
    #[serde(flatten)]
    pub rest: Rest,
    #[serde(flatten)]
    pub none: Rest,
}

/// A struct after the rest. It finds no entries.
#[derive(Drop, Deserialize)]
pub struct Late {
    #[serde(flatten)]
    pub rest: Rest,
    #[serde(flatten)]
    pub plain: Plain,
}

/// An enum, and the rest. The enum does not tell which entries it took.
#[derive(Drop, Serialize, Deserialize)]
pub struct Beside {
    #[serde(flatten)]
    pub tagged: Tagged,
    #[serde(flatten)]
    pub rest: Rest,
}

/// A struct that flattens values of its own, and the rest. It does not tell which entries it took.
#[derive(Drop, Serialize, Deserialize)]
pub struct Around {
    #[serde(flatten)]
    pub shared: Shared,
    #[serde(flatten)]
    pub rest: Rest,
}
