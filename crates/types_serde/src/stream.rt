//! Streams: values one after another, up to the end of the source.

ghost use Rattle.std.specs.Prelude.{◌≡◌, [], false};
ghost use Rattle.dagcbor_core.specs.Steps.{default_steps};
ghost use Rattle.dagcbor_heads.specs.Reading.{fresh_reading};
ghost use Rattle.dagcbor_heads.specs.Inputs.{OverInput};
ghost use Rattle.types_serde.specs.Streams.{stream_state, items_left, ReadsNext, GivesNext};

use crate::error::Error;
use crate::source::pull_block;
use crate::whole::fit;
use dagcbor_core::DecodeError;
use dagcbor_heads::{Input, IoReader, Read, is_at_end};
use serde::DeserializeOwned;
use std::alloc::Global;
use std::io::BufRead;
use std::marker::PhantomData;

/// An iterator over the values in a source, one after another. It gives nothing after an error, or
/// after the end.
#[derive(Drop)]
pub struct Stream<R, T> {
    alloc: Global,
    input: Input<'static, R>,
    done: bool,
    output: PhantomData<T>,
}

/// What a stream gives: a value, or why none was read.
type Item<R, T> = Result<T, Error<<R as Read>::Error>>;

/// Reads the value of the block at the front.
#[tactic(auto, using(crate::proofs::Streaming::refused_after, crate::proofs::Streaming::item_before))]
fn next_value<R: Read, T: DeserializeOwned>(
    alloc: Global,
    input: &mut Input<'_, R>,
) -> Option<Item<R, T>>
    ensures { OverInput R.reading ReadsNext input.old result input.new }
{
    match is_at_end(input) {
        Ok(true) => None,
        Ok(false) => match pull_block(alloc, input) {
            Ok(block) => Some(fit(alloc, &block)),
            Err(error) => Some(Err(Error::NoBlock(error))),
        },
        Err(fault) => Some(Err(Error::NoBlock(DecodeError::Read(fault)))),
    }
}

impl<R: Read, T: DeserializeOwned> Iterator for Stream<R, T> {
    type Item = Item<R, T>;

    // A stream that is done gives nothing. Otherwise `next` gives the result of reading the next
    // value.
    ghost next_gives = { λ old item new. GivesNext (stream_state R.reading old) item
        (stream_state R.reading new) };

    // There are at most n + 1 items in n bytes, because a block takes at least a byte.
    ghost remaining = { λ s. items_left (stream_state R.reading s) };

    fn next(&mut self) -> Option<Item<R, T>> {
        if self.done {
            return None;
        }
        let item = next_value(self.alloc, &mut self.input);
        self.done = !matches!(item, Some(Ok(_)));
        item
    }
}

/// Returns an iterator over the values in the source.
pub fn iter_from_reader<T: DeserializeOwned, R: BufRead + Drop>(
    alloc: Global,
    source: R,
) -> Stream<IoReader<R>, T>
    ensures { stream_state (λ r. r) result ≡ record {
      reading = fresh_reading (R.remaining source) default_steps false [];
      done = false;
    } }
{
    Stream {
        alloc,
        input: Input::Reader(IoReader::new(source)),
        done: false,
        output: PhantomData,
    }
}
