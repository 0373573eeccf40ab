//! Heads of DAG-CBOR items at the front of bytes, and why a value is not read or not written.
//!
//! The head of a list of three items, and the items after it:
//!
//! ```rust
//! let (major, argument, rest) = split_head(&[0x83, 1, 2, 3]).unwrap();
//! assert!(major == 4 && argument == 3 && rest == [1, 2, 3]);
//! ```
#![tactic(auto)]

mod error;
mod front;
pub mod laws;
mod name;
mod steps;
mod text;

pub use error::{ArithmeticOverflow, DecodeError, EncodeError, Len};
pub use front::{least_argument, split_head};
pub use name::{Message, Name};
pub use steps::DEFAULT_STEPS;
