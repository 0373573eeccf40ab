//! What a CAR file holds, in numbers.

ghost use Rattle.std.specs.Prelude.{◌≡◌, ℕ, List, [], Some, IfOk, IfSome, map, take};
ghost use Rattle.dagcbor_heads.specs.Reading.{Reading};
ghost use Rattle.dagcbor_heads.specs.Inputs.{input_reading};
ghost use Rattle.dagcbor_items.specs.Walks.{forms};
ghost use Rattle.files_car.specs.Car.{Section as CarSection};
ghost use Rattle.files_car.specs.Sources.{TakesStart};
ghost use Rattle.program_parts.specs.Lines.{SaysBoth};
ghost use Rattle.program_inspect.specs.Counts.{Measure, AreCounts};
ghost use Rattle.program_inspect.specs.Inspecting.{root_unless, root_in, index_told, AreFacts, AreFactsOf, IsFound};
ghost use Rattle.program_inspect.specs.Inspecting.{text_in, IsInspected, Knows, LearnsNext};

use crate::counts::Counts;
use crate::facts::{Facts, Index, Root};
use crate::front::{read_front, says_index, version_of};
use crate::json::json_text;
use crate::names::Names;
use crate::plain::plain_text;
use dagcbor_heads::{Input, IoRefReader, Read};
use files_car::{CarCheck, Section, SectionSink, pull_header};
use ipld_tree::Cid;
use program_parts::{Ended, fault_line, input_over, say_both, take_sections};
use program_shared::ToolError;
use std::alloc::{AllocError, Global};
use std::io::{BufRead, Read as Source, Write};

/// The form of the output.
#[derive(Clone, Copy, Debug, PartialEq, Eq)]
pub enum Form {
    Lines,
    Json,
}

/// What is known of a file after some of its sections.
#[derive(Drop)]
struct Inspecting {
    check: CarCheck,
    counts: Counts,
}

impl Inspecting {
    /// Returns what is known after the header with these roots.
    fn new(alloc: Global, roots: &[Cid]) -> Result<Inspecting, AllocError>
        ensures { IfOk result (λ it. Knows it (forms roots.now) []) }
    {
        let check = CarCheck::new(alloc, roots)?;
        let counts = Counts::new(alloc);
        Ok(Inspecting { check, counts })
    }
}

impl SectionSink for Inspecting {
    type Stop = AllocError;

    ghost takes = { LearnsNext };

    fn take(&mut self, section: &Section<'_>) -> Result<(), AllocError> {
        match self.check.take(section) {
            Ok(_verdict) => self.counts.count(&section.cid, section.block.len() as u64),
            Err(error) => Err(error),
        }
    }
}

/// Returns the facts about a root.
fn root_told(root: &Cid, missing: &Names) -> Root
    ensures { result ≡ root_unless missing.now.cids.keys root.now }
{
    Root {
        cid: *root,
        there: !missing.contains(root),
    }
}

/// Returns the facts about the roots.
fn roots_told(alloc: Global, roots: &[Cid], missing: &[Cid]) -> Result<Vec<Root>, AllocError>
    ensures { IfOk result (λ v. v.items ≡ map (root_in missing.now) roots.now) }
{
    let names = Names::of(alloc, missing)?;
    let mut told = Vec::new(alloc);
    for root in roots {
        told.push(root_told(root, &names))?;
    }
    Ok(told)
}

/// Returns `index`, if a file that begins with these bytes says that it has one.
fn index_told(front: &[u8], index: Index) -> Option<Index>
    ensures { result ≡ index_told index front.now }
{
    if !says_index(front) {
        return None;
    }
    Some(index)
}

/// Returns the facts about a file with these first bytes, roots and counts.
fn facts_of(
    alloc: Global,
    front: &[u8],
    index: Index,
    roots: &[Cid],
    missing: &[Cid],
    counts: Counts,
) -> Result<Facts, AllocError>
    ensures { IfOk result (λ facts. (blocks : List Measure) → AreCounts counts blocks
        → AreFacts facts front.now index roots.now blocks missing.now) }
{
    let Counts {
        all,
        least,
        greatest,
        codecs,
        hashes,
        names,
    } = counts;
    let repeated = all.count.saturating_sub(names.count() as u64);
    let roots = roots_told(alloc, roots, missing)?;
    let codecs = codecs.into_vec(alloc)?;
    let hashes = hashes.into_vec(alloc)?;
    Ok(Facts {
        version: version_of(front),
        index: index_told(front, index),
        roots,
        all,
        repeated,
        least,
        greatest,
        codecs,
        hashes,
        missing: missing.len() as u64,
    })
}

/// Returns the facts about a file with these roots, after all its sections.
fn facts_after(
    alloc: Global,
    front: &[u8],
    index: Index,
    roots: &[Cid],
    it: Inspecting,
) -> Result<Facts, AllocError>
    ensures { (sections : List CarSection) → Knows it (forms roots.now) sections
        → IfOk result (λ facts. AreFactsOf facts front.now index roots.now sections) }
{
    let Inspecting { check, counts } = it;
    match check.missing(alloc) {
        Ok(missing) => facts_of(alloc, front, index, roots, &missing, counts),
        Err(error) => Err(error),
    }
}

/// Reads what follows a header, and returns the facts about the file; or a line that says why it is
/// refused.
fn find_after<'de, R: Read>(
    alloc: Global,
    front: &[u8],
    index: Index,
    roots: &[Cid],
    input: &mut Input<'de, R>,
    extent: Option<u64>,
) -> Result<Result<Facts, Vec<u8>>, ToolError>
    ensures { IfOk result (λ found. (start : Reading) (b : List ℕ)
        → TakesStart start (forms roots.now) extent (input_reading R.reading input.old)
        → start.left ≡ Some b → IsFound b front.now index found) }
{
    let mut it = Inspecting::new(alloc, roots)?;
    let ended = take_sections(alloc, &mut it, input, extent)?;
    match ended {
        Ended::Whole => {
            let facts = facts_after(alloc, front, index, roots, it)?;
            Ok(Ok(facts))
        }
        Ended::Stopped(_) => Err(ToolError::OutOfMemory),
        Ended::Fault(line) => Ok(Err(line)),
    }
}

/// Reads a CAR file, and returns the facts about it; or a line that says why it is refused.
fn find_file<'de, R: Read>(
    alloc: Global,
    front: &[u8],
    index: Index,
    input: &mut Input<'de, R>,
) -> Result<Result<Facts, Vec<u8>>, ToolError>
    ensures { IfOk result (λ found. (b : List ℕ)
        → (input_reading R.reading input.old).left ≡ Some b → IsFound b front.now index found) }
{
    match pull_header(alloc, input) {
        Ok((roots, extent)) => find_after(alloc, front, index, &roots, input, extent),
        Err(error) => {
            let line = fault_line(alloc, error)?;
            Ok(Err(line))
        }
    }
}

/// Returns the same for a buffered input that begins with `front`.
fn find_whole<R: BufRead>(
    alloc: Global,
    front: &[u8],
    index: Index,
    input: &mut R,
) -> Result<Result<Facts, Vec<u8>>, ToolError>
    ensures { IfSome (R.remaining input.old) (λ b. IfOk result (IsFound b front.now index)) }
{
    let mut source = input_over(IoRefReader::new(input));
    find_file(alloc, front, index, &mut source)
}

/// Returns the same for an input of which nothing is read yet.
fn find<R: BufRead>(
    alloc: Global,
    index: Index,
    input: &mut R,
) -> Result<Result<Facts, Vec<u8>>, ToolError>
    ensures { IfSome (R.remaining input.old) (λ b. IfOk result (IsFound b (take 51 b) index)) }
{
    let front = read_front(alloc, input)?;
    let mut whole = front.as_slice().chain(input);
    find_whole(alloc, &front, index, &mut whole)
}

/// Returns the text of the facts, in this form.
fn text_in(alloc: Global, form: Form, facts: &Facts) -> Result<Vec<u8>, AllocError>
    ensures { IfOk result (λ v. v.items ≡ text_in form facts.now) }
{
    match form {
        Form::Lines => plain_text(alloc, facts),
        Form::Json => json_text(alloc, facts),
    }
}

/// Writes what the input's CAR file holds, in this form, or an error line that says why it is not
/// one. Returns whether it is one. Reports `index`, if the file says that it has one. Reads the
/// input once. Holds one section at a time in memory, and the CIDs of the blocks.
pub fn write_inspected<R: BufRead, W: Write, V: Write>(
    alloc: Global,
    form: Form,
    index: Index,
    input: &mut R,
    output: &mut W,
    errors: &mut V,
) -> Result<bool, ToolError>
    ensures { IfSome (R.remaining input.old) (λ b. SaysBoth (IsInspected form index b)
        (W.contents output.old) (V.contents errors.old) result (W.contents output.new)
        (V.contents errors.new)) }
{
    let found = find(alloc, index, input)?;
    match found {
        Ok(facts) => {
            let text = text_in(alloc, form, &facts)?;
            say_both((text, true), b"", output, errors)
        }
        Err(line) => say_both((Vec::new(alloc), false), &line, output, errors),
    }
}
