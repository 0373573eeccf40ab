//! Where the sections of a file begin.

ghost use Rattle.std.specs.Prelude.{◌≡◌, List, ℕ, Some, IfOk, IfSome};
ghost use Rattle.dagcbor_heads.specs.Inputs.{input_reading};
ghost use Rattle.dagcbor_heads.specs.Reading.{Reading};
ghost use Rattle.files_car.specs.Sources.{TakesStart};
ghost use Rattle.dagcbor_items.specs.Walks.{forms};
ghost use Rattle.program_index.specs.Judged.{PlacesNext, ArePlaced};

use crate::gather::{header_length, section_length};
use dagcbor_heads::{Input, IoRefReader, Read};
use files_car::{Section, SectionSink, pull_header};
use files_index::{Placed, ReadAt, buffered_from};
use ipld_tree::Cid;
use program_parts::{Ended, fault_line, input_over, take_sections};
use program_shared::ToolError;
use std::alloc::{AllocError, Global};
use std::io::BufRead;

/// The sections taken so far, and the offset of the next.
#[derive(Drop)]
struct Placing {
    sections: Vec<Placed>,
    place: u64,
}

impl SectionSink for Placing {
    type Stop = AllocError;

    ghost takes = { PlacesNext };

    fn take(&mut self, section: &Section<'_>) -> Result<(), AllocError> {
        self.sections.push(Placed {
            cid: section.cid,
            offset: self.place,
        })?;
        match self.place.checked_add(section_length(section)) {
            Some(place) => {
                self.place = place;
                Ok(())
            }
            None => Err(AllocError),
        }
    }
}

/// Returns the sections after the header with these roots, up to `extent` if given.
fn place_sections<'de, R: Read>(
    alloc: Global,
    roots: &[Cid],
    input: &mut Input<'de, R>,
    extent: Option<u64>,
) -> Result<Result<Vec<Placed>, Vec<u8>>, ToolError>
    ensures { (start : Reading) → TakesStart start (forms roots.now) extent (input_reading R.reading input.old)
        → (b : List ℕ) → start.left ≡ Some b → IfOk result (ArePlaced b) }
{
    let mut placing = Placing {
        sections: Vec::new(alloc),
        place: header_length(alloc, roots)?,
    };
    match take_sections(alloc, &mut placing, input, extent)? {
        Ended::Whole => Ok(Ok(placing.sections)),
        Ended::Stopped(_) => Err(ToolError::OutOfMemory),
        Ended::Fault(line) => Ok(Err(line)),
    }
}

/// Returns the sections of the input's CAR file, or a line that says why it is not one.
fn place_file<'de, R: Read>(
    alloc: Global,
    input: &mut Input<'de, R>,
) -> Result<Result<Vec<Placed>, Vec<u8>>, ToolError>
    ensures { (b : List ℕ) → (input_reading R.reading input.old).left ≡ Some b → IfOk result (ArePlaced b) }
{
    match pull_header(alloc, input) {
        Ok((roots, extent)) => place_sections(alloc, &roots, input, extent),
        Err(error) => {
            let line = fault_line(alloc, error)?;
            Ok(Err(line))
        }
    }
}

/// The same, for a buffered source.
fn place_from<R: BufRead>(
    alloc: Global,
    input: &mut R,
) -> Result<Result<Vec<Placed>, Vec<u8>>, ToolError>
    ensures { IfSome (R.remaining input.old) (λ b. IfOk result (ArePlaced b)) }
{
    let mut source = input_over(IoRefReader::new(input));
    let result = place_file(alloc, &mut source);
    if let Some(lent) = source.into_reader() {
        let _source = lent.into_inner();
    }
    result
}

/// Returns the sections of a random-access file, or a line that says why it is not a CAR file.
pub(crate) fn place_at<S: ReadAt>(
    alloc: Global,
    source: &S,
) -> Result<Result<Vec<Placed>, Vec<u8>>, ToolError>
    ensures { IfSome (S.bytes source.now) (λ b. IfOk result (ArePlaced b)) }
{
    match buffered_from(alloc, source, 0) {
        Ok(mut input) => place_from(alloc, &mut input),
        Err(_) => Err(ToolError::OutOfMemory),
    }
}
