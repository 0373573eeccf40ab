//! Streams: values one after another, up to the end of the input.

ghost use Rattle.std.specs.Prelude.{◌≡◌, [], false};
ghost use Rattle.dagcbor_core.specs.Steps.{default_steps};
ghost use Rattle.dagcbor_heads.specs.Reading.{fresh_reading};
ghost use Rattle.dagcbor_read.specs.Deserializers.{de_state};
ghost use Rattle.dagcbor_read.specs.Streams.{stream_state, items_left, GivesNext, LiesNext};

use crate::deserialize::{Deserialize, DeserializeOwned};
use crate::deserializer::Deserializer;
use dagcbor_heads::{IoReader, Read, ReadResult};
use std::alloc::Global;
use std::io::BufRead;
use std::marker::PhantomData;

/// An iterator over the values in an input, one after another. It gives nothing after an error, or
/// after the end.
#[derive(Drop)]
pub struct StreamDeserializer<'de, R, T> {
    alloc: Global,
    de: Deserializer<'de, R>,
    done: bool,
    output: PhantomData<T>,
}

impl<'de, R: Read, T: Deserialize<'de>> StreamDeserializer<'de, R, T> {
    /// Returns an iterator over the values left in the input.
    pub fn new(alloc: Global, de: Deserializer<'de, R>) -> StreamDeserializer<'de, R, T>
        ensures { stream_state R.reading
            result ≡ record { source = de_state R.reading de.entry; done = false } }
    {
        StreamDeserializer {
            alloc,
            de,
            done: false,
            output: PhantomData,
        }
    }
}

impl<'de, R: Read, T: Deserialize<'de>> Iterator for StreamDeserializer<'de, R, T> {
    type Item = ReadResult<T, R>;

    // A stream that is done gives nothing. Otherwise `next` gives the result of reading the next
    // value.
    ghost next_gives = { λ old item new. GivesNext T.meaning T.shape (stream_state R.reading old) item (stream_state R.reading new)
        × LiesNext T.lies (stream_state R.reading old) item };

    // There are at most n + 1 items in n bytes, because a value takes at least a byte.
    ghost remaining = { λ s. items_left (stream_state R.reading s) };

    fn next(&mut self) -> Option<ReadResult<T, R>> {
        if self.done {
            return None;
        }
        let item = self.de.next_value(self.alloc).transpose();
        self.done = !matches!(item, Some(Ok(_)));
        item
    }
}

/// Returns an iterator over the values in the source.
///
/// ```rust
/// let source = b"\x66foobar\x63baz".as_slice();
/// let mut texts = Vec::new(alloc);
/// for text in iter_from_reader::<String, _>(alloc, source) {
///     texts.push(text?)?;
/// }
/// is_told(alloc, &texts, r#"["foobar", "baz"]"#)
/// ```
pub fn iter_from_reader<'de, T: DeserializeOwned<'de>, R: BufRead + Drop>(
    alloc: Global,
    source: R,
) -> StreamDeserializer<'de, IoReader<R>, T>
    ensures { stream_state (λ r. r) result ≡ record {
      source = record {
        input = fresh_reading (R.remaining source) default_steps false [];
        failed = false;
      };
      done = false;
    } }
{
    Deserializer::from_reader(IoReader::new(source)).into_iter(alloc)
}
