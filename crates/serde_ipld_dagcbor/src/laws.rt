//! Laws of the grammar, of streams, and of reading and writing. Each is the contract of a function
//! that does nothing.

ghost use Rattle.serde_ipld_dagcbor.specs.RoundTrips.{ReadThenWritten, TypedReadThenWritten};
ghost use Rattle.serde_ipld_dagcbor.specs.RoundTrips.{WrittenThenRead, TypedWrittenThenRead};

use dagcbor_read::Deserialize;
pub use dagcbor_read::laws::{stream_unique, streams_exact};
use dagcbor_write::Serialize;
pub use dagcbor_write::laws::order_unseen;
pub use ipld_tree::laws::{
    cid_equality, cid_faults, equality, key_order, spelled_is_the_spelling, spelling_unique,
};

/// If `from_slice_with_depth` reads bytes as an `Ipld`, at any budget, `to_vec` writes the same
/// bytes again. The same holds for `from_slice`, whose budget is 256 steps.
pub fn read_then_written()
    ensures { ReadThenWritten }
{}

/// A value of any type is written as the bytes that it was read from, if its tree is the one in
/// these bytes. This is not so for every value: `Some(None)` is null, which is read as `None`.
pub fn typed_read_then_written<'de, T: Deserialize<'de> + Serialize>()
    ensures { TypedReadThenWritten T.meaning T.shape T.tree }
{}

/// `from_slice_with_depth` reads back what `to_vec` writes for an `Ipld`, at any budget that is not
/// below its need. So does `from_slice`, if the need is at most 256.
pub fn written_then_read()
    ensures { WrittenThenRead }
{}

/// What `to_vec` writes for a value of any type is read back as the type's view of its tree.
pub fn typed_written_then_read<'de, T: Deserialize<'de> + Serialize>()
    ensures { TypedWrittenThenRead T.meaning T.shape T.tree }
{}
