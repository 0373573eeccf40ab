//! Passes the sections of a CAR file, one by one, to a sink.

ghost use Rattle.std.specs.Prelude.{Result};
ghost use Rattle.dagcbor_heads.specs.Inputs.{input_reading};
ghost use Rattle.files_car.specs.Car.{Section as CarSection};
ghost use Rattle.files_car.specs.Each.{RunsEach, TakesNext};

use crate::error::CarError;
use crate::pull::pull_section;
use crate::section::Section;
use dagcbor_heads::{Input, Read};
use ipld_tree::Cid;
use std::alloc::Global;
use thiserror::Error;

/// A sink that takes the sections of a CAR file, one after another.
pub trait SectionSink {
    /// Why it takes no more sections.
    type Stop: Drop;

    /// The relation of a section, the sink before, the answer of `take`, and the sink after.
    ghost takes: { CarSection → Self → Result (Unit {0}) Self.Stop → Self → Type 0 };

    /// Takes the next section. After a refusal it is given no more.
    fn take(&mut self, section: &Section<'_>) -> Result<(), Self::Stop>
        ensures { Self.takes (section.now.cid, section.now.block.now) self.old result self.new };
}

/// Why the sections of a file were not all read. `E` is the reader's error, `T` the sink's.
#[derive(Debug, Drop, Error)]
pub enum ReadCarError<E, T> {
    /// No file begins there, or its header was not read. `each_section` never returns it.
    #[error("{0}")]
    Header(CarError<E>),
    /// After this many sections that were taken, bytes are left or missing, and no section begins;
    /// or the next section was not read.
    #[error("after {0} sections: {1}")]
    Section(u64, CarError<E>),
    /// After this many sections that were taken, the sink refused the one with this name, for this
    /// reason.
    #[error("after {0} sections: the next was not taken")]
    Block(u64, Cid, T),
}

/// Passes the remaining sections of a file to the sink, and returns how many they are. `left` is
/// the number of bytes left of the file, as in `pull_section`. One section is in memory at a time,
/// besides what the sink keeps.
pub fn each_section<'de, R: Read, S: SectionSink>(
    alloc: Global,
    input: &mut Input<'de, R>,
    left: &mut Option<u64>,
    sink: &mut S,
) -> Result<u64, ReadCarError<R::Error, S::Stop>>
    ensures { RunsEach S.takes left.old (input_reading R.reading input.old) sink.old result
        left.new (input_reading R.reading input.new) sink.new }
{
    // No file has this many sections, but a source that never ends may.
    for count in 0..u64::MAX {
        let more = take_next(alloc, count, input, left, sink)?;
        if !more {
            return Ok(count);
        }
    }
    Err(ReadCarError::Section(u64::MAX, CarError::OutOfMemory))
}

/// Passes the next section to the sink, after `count` others, and returns whether there was one.
fn take_next<'de, R: Read, S: SectionSink>(
    alloc: Global,
    count: u64,
    input: &mut Input<'de, R>,
    left: &mut Option<u64>,
    sink: &mut S,
) -> Result<bool, ReadCarError<R::Error, S::Stop>>
    ensures { TakesNext S.takes count left.old (input_reading R.reading input.old) sink.old result
        left.new (input_reading R.reading input.new) sink.new }
{
    match pull_section(alloc, input, left) {
        Ok(Some(section)) => match sink.take(&section.section()) {
            Ok(()) => Ok(true),
            Err(stop) => Err(ReadCarError::Block(count, section.cid(), stop)),
        },
        Ok(None) => Ok(false),
        Err(error) => Err(ReadCarError::Section(count, error)),
    }
}
