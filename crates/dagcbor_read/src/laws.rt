//! Laws of streams. Each is the contract of a function that does nothing.

ghost use Rattle.dagcbor_read.specs.Streams.{stream_state, StreamsAreExact, StreamsAreUnique};

use crate::deserialize::Deserialize;
use crate::shown::Shown;
use dagcbor_heads::Read;

/// The items of a stream over known bytes are the stream of the type on those bytes.
pub fn streams_exact<'de, T: Deserialize<'de>, R: Read>()
    ensures { StreamsAreExact R.Error (stream_state {T = T} R.reading) T.meaning T.shape T.lies }
{}

/// The same bytes have only one stream of a type.
pub fn stream_unique<T: Shown>()
    ensures { StreamsAreUnique T.shape }
{}
