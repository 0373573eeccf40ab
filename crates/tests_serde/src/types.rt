//! Types as a user of `types_serde` writes them, with only a derive.

mod envelope;
mod fields;
mod others;
mod records;
mod variants;

pub use envelope::Envelope;
pub use fields::{Flat, Metres, Plain, Point, Renamed, Twice, Unit, Wrapper};
pub use others::{Even, Level};
pub use records::{Around, Beside, Item, Late, Post, Record, Shared};
pub use variants::{Adjacent, Either, Shape, Side, Tagged};
