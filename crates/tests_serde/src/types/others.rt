//! Types that are written and read as other types.

use serde::{Deserialize, Serialize};

/// A type that is written and read as another type.
#[derive(Clone, Copy, Drop, Serialize, Deserialize)]
#[serde(from = "u8", into = "u8")]
pub struct Level {
    pub height: u8,
}

impl From<u8> for Level {
    fn from(height: u8) -> Level {
        Level { height }
    }
}

impl From<Level> for u8 {
    fn from(level: Level) -> u8 {
        level.height
    }
}

/// Even numbers only.
#[derive(Drop, Serialize, Deserialize)]
#[serde(try_from = "u8", transparent)]
pub struct Even(pub u8);

impl TryFrom<u8> for Even {
    type Error = &'static str;

    fn try_from(number: u8) -> Result<Even, &'static str> {
        if number % 2 == 0 {
            Ok(Even(number))
        } else {
            Err("odd")
        }
    }
}
