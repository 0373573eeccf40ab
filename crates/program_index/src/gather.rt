//! Gathers the entries of the sections of a file.

ghost use Rattle.std.specs.Prelude.{◌≡◌, ◌≤◌, List, ℕ, Some, length, IfOk, IfSome};
ghost use Rattle.dagcbor_heads.specs.Inputs.{input_reading};
ghost use Rattle.dagcbor_heads.specs.Reading.{Reading};
ghost use Rattle.ipld_tree.specs.Cid.{varint, cid_bytes};
ghost use Rattle.files_car.specs.Sources.{TakesStart};
ghost use Rattle.dagcbor_items.specs.Walks.{forms};
ghost use Rattle.files_car.specs.Car.{section_bytes, header_bytes};
ghost use Rattle.program_index.specs.Steps.{GathersNext, Gathers};

use arrayvec::ArrayVec;
use dagcbor_heads::{Input, IoRefReader, Read};
use files_car::{Section, SectionSink, pull_header, push_header};
use files_index::{Entry, ReadAt, buffered_from};
use ipld_tree::Cid;
use program_parts::{Ended, fault_line, input_over, take_sections};
use program_shared::ToolError;
use std::alloc::{AllocError, Global};
use std::io::BufRead;

/// The entries of the sections taken so far, and the offset of the next.
#[derive(Drop)]
struct Gathering {
    entries: Vec<Entry>,
    place: u64,
}

/// The entries of a file, in order, and the length of its CARv1 payload.
#[derive(Drop)]
pub(crate) struct Gathered {
    pub entries: Vec<Entry>,
    pub length: u64,
}

/// Returns the varint of a number: groups of seven bits, the lowest first.
fn varint_of(number: u64) -> ArrayVec<u8, 10>
    ensures { result.items ≡ varint number }
{
    let mut groups = ArrayVec::new();
    let mut rest = number;
    while rest >= 128 {
        groups.push(128 + (rest % 128) as u8);
        rest /= 128;
    }
    groups.push(rest as u8);
    groups
}

/// Returns the length of a number as a varint, in bytes.
fn varint_length(number: u64) -> usize
    ensures length { result ≡ length (varint number) }
    ensures short { result ≤ 10 }
{
    varint_of(number).len()
}

/// Returns the length of a CID in its binary form, in bytes.
fn name_length(cid: &Cid) -> usize
    ensures length { result ≡ length (cid_bytes cid.now) }
    ensures short { result ≤ 86 }
{
    let mut name = ArrayVec::new();
    cid.write_bytes(&mut name);
    name.len()
}

/// Returns the length of a section, in bytes.
#[tactic(auto, using(crate::proofs::Gathering::section_long))]
pub(crate) fn section_length(section: &Section<'_>) -> u64
    ensures { result ≡ length (section_bytes (section.now.cid, section.now.block.now)) }
{
    let body = name_length(&section.cid) + section.block.len();
    (varint_length(body as u64) + body) as u64
}

/// Returns the length of a header with these roots, in bytes.
pub(crate) fn header_length(alloc: Global, roots: &[Cid]) -> Result<u64, ToolError>
    ensures { IfOk result (λ n. n ≡ length (header_bytes (forms roots.now))) }
{
    let mut header = Vec::new(alloc);
    match push_header(alloc, &mut header, roots) {
        Ok(()) => Ok(header.len() as u64),
        Err(_) => Err(ToolError::OutOfMemory),
    }
}

impl SectionSink for Gathering {
    type Stop = AllocError;

    ghost takes = { GathersNext };

    fn take(&mut self, section: &Section<'_>) -> Result<(), AllocError> {
        self.entries.push(Entry::new(&section.cid, self.place))?;
        match self.place.checked_add(section_length(section)) {
            Some(place) => {
                self.place = place;
                Ok(())
            }
            None => Err(AllocError),
        }
    }
}

/// Returns the entries of the sections after the header with these roots, up to `extent` if given.
fn gather_sections<'de, R: Read>(
    alloc: Global,
    roots: &[Cid],
    input: &mut Input<'de, R>,
    extent: Option<u64>,
) -> Result<Result<Gathered, Vec<u8>>, ToolError>
    ensures { (start : Reading) → TakesStart start (forms roots.now) extent (input_reading R.reading input.old)
        → (b : List ℕ) → start.left ≡ Some b → IfOk result (Gathers b) }
{
    let mut gathering = Gathering {
        entries: Vec::new(alloc),
        place: header_length(alloc, roots)?,
    };
    match take_sections(alloc, &mut gathering, input, extent)? {
        Ended::Whole => {
            let Gathering { mut entries, place } = gathering;
            entries.sort_unstable();
            Ok(Ok(Gathered {
                entries,
                length: place,
            }))
        }
        Ended::Stopped(_) => Err(ToolError::OutOfMemory),
        Ended::Fault(line) => Ok(Err(line)),
    }
}

/// Returns the entries of the input's CAR file, or a line that says why it is not one.
fn gather<'de, R: Read>(
    alloc: Global,
    input: &mut Input<'de, R>,
) -> Result<Result<Gathered, Vec<u8>>, ToolError>
    ensures { (b : List ℕ) → (input_reading R.reading input.old).left ≡ Some b → IfOk result (Gathers b) }
{
    match pull_header(alloc, input) {
        Ok((roots, extent)) => gather_sections(alloc, &roots, input, extent),
        Err(error) => {
            let line = fault_line(alloc, error)?;
            Ok(Err(line))
        }
    }
}

/// The same, for a buffered source.
fn gather_from<R: BufRead>(
    alloc: Global,
    input: &mut R,
) -> Result<Result<Gathered, Vec<u8>>, ToolError>
    ensures { IfSome (R.remaining input.old) (λ b. IfOk result (Gathers b)) }
{
    let mut source = input_over(IoRefReader::new(input));
    let result = gather(alloc, &mut source);
    if let Some(lent) = source.into_reader() {
        let _source = lent.into_inner();
    }
    result
}

/// Returns the entries of a random-access file, or a line that says why it is not a CAR file.
pub(crate) fn gather_at<S: ReadAt>(
    alloc: Global,
    source: &S,
) -> Result<Result<Gathered, Vec<u8>>, ToolError>
    ensures { IfSome (S.bytes source.now) (λ b. IfOk result (Gathers b)) }
{
    match buffered_from(alloc, source, 0) {
        Ok(mut input) => gather_from(alloc, &mut input),
        Err(_) => Err(ToolError::OutOfMemory),
    }
}
