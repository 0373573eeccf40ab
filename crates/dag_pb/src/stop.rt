//! Where reading a block stops.

ghost use Rattle.std.specs.Prelude.{◌≡◌, length};

use crate::error::PbCause;

/// Why reading stops, and how many bytes are left from the cause on.
#[derive(Copy, Clone)]
pub struct Stop {
    pub cause: PbCause,
    pub left: usize,
}

impl Stop {
    /// Returns a stop at the front of these bytes.
    pub fn before(cause: PbCause, bytes: &[u8]) -> Stop
        ensures { result ≡ record { cause = cause; left = length bytes.now } }
    {
        Stop {
            cause,
            left: bytes.len(),
        }
    }
}
