//! Reads the sections of a CAR file one by one, from a slice or any reader.

ghost use Rattle.std.specs.Prelude.{[], Some, true};
ghost use Rattle.dagcbor_heads.specs.Inputs.{input_reading, not_lending};
ghost use Rattle.dagcbor_core.specs.Steps.{default_steps};
ghost use Rattle.dagcbor_heads.specs.Reading.{fresh_reading};
ghost use Rattle.files_car.specs.Sources.{section_stream, GivesSection, Begins};

use crate::error::CarError;
use crate::pull::{pull_header, pull_section};
use crate::read_section::ReadSection;
use dagcbor_heads::{Input, Read, SliceReader};
use ipld_tree::Cid;
use std::alloc::Global;
use std::convert::Infallible;

/// The sections of a file, one by one. At most one is in memory, and none if a slice lends them.
/// After an error, and after the end, `next` returns `None`.
#[derive(Drop)]
pub struct CarReader<'de, R> {
    alloc: Global,
    input: Input<'de, R>,
    /// How many bytes of the file are left, as `pull_header` returns it.
    left: Option<u64>,
    done: bool,
}

/// The roots of a file, and a reader of its sections; or why the file was not begun.
pub type Begun<'de, R> = Result<(Vec<Cid>, CarReader<'de, R>), CarError<<R as Read>::Error>>;

impl<'de> CarReader<'de, SliceReader<'de>> {
    /// Reads the header of the file in the bytes.
    pub fn from_slice(alloc: Global, bytes: &'de [u8]) -> Begun<'de, SliceReader<'de>>
        ensures { Begins (λ r. r) (fresh_reading (Some bytes.now) default_steps true []) result }
    {
        CarReader::begin(alloc, Input::Slice(SliceReader::new(bytes)))
    }
}

impl<'de, R: Read> CarReader<'de, R> {
    /// Reads the header of the file in the reader.
    pub fn new(alloc: Global, reader: R) -> Begun<'de, R>
        ensures { Begins R.reading (not_lending (R.reading reader)) result }
    {
        CarReader::begin(alloc, Input::Reader(reader))
    }

    fn begin(alloc: Global, mut input: Input<'de, R>) -> Begun<'de, R>
        ensures { Begins R.reading (input_reading R.reading input.entry) result }
    {
        let (roots, left) = pull_header(alloc, &mut input)?;
        let sections = CarReader {
            alloc,
            input,
            left,
            done: false,
        };
        Ok((roots, sections))
    }

    /// Returns the next section. `None` at the end of the file.
    pub fn next(&mut self) -> Option<Result<ReadSection<'de>, CarError<R::Error>>>
        ensures { GivesSection (section_stream R.reading self.old) result
            (section_stream R.reading self.new) }
    {
        if self.done {
            return None;
        }
        let item = pull_section(self.alloc, &mut self.input, &mut self.left).transpose();
        self.done = !matches!(item, Some(Ok(_)));
        item
    }
}
