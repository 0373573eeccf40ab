//! `filter`: a CAR file of the sections that are kept.

ghost use Rattle.std.specs.Prelude.{◌≡◌, [], Option, Result, IfOk, IfSome};
ghost use Rattle.dagcbor_heads.specs.Inputs.{input_reading};
ghost use Rattle.dagcbor_items.specs.Walks.{forms};
ghost use Rattle.files_car.specs.Car.{header_bytes};
ghost use Rattle.program_parts.specs.declared.take.Ended.TheVariants.{Whole};
ghost use Rattle.program_sections.specs.Kept.{roots_of};
ghost use Rattle.program_sections.specs.declared.kept.Kept.TheVariants.{Named};
ghost use Rattle.program_parts.specs.Lines.{SaysText};
ghost use Rattle.program_sections.specs.Sending.{SaysSent};
ghost use Rattle.program_sections.specs.Filtering.{IsFiltered, IsFilteredFront};
ghost use Rattle.program_sections.specs.Lists.{IsFilteredByList, IsFilteredByListFront};
ghost use Rattle.program_sections.specs.Steps.{filtering_work, Filters, TellsRest, following, run};
ghost use Rattle.program_sections.specs.Steps.{FiltersSections, FiltersHeader, FiltersFile};

use crate::kept::{Kept, missing_of, note, roots_of};
use crate::names::names_in;
use crate::send::{send_header, send_section};
use dagcbor_heads::{Input, IoRefReader, Read};
use files_car::{Section, SectionSink, pull_header};
use ipld_tree::Cid;
use program_parts::{Ended, fault_line, input_over, missing_lines, say, say_both, take_sections};
use program_shared::ToolError;
use std::alloc::Global;
use std::collections::BTreeSet;
use std::io::{BufRead, ErrorKind, Write};

/// What `filter` makes of a CAR file: the roots given, or else the file's roots that are kept, and
/// the sections that are kept.
#[derive(Drop)]
pub struct Filter {
    pub roots: Vec<Cid>,
    pub kept: Kept,
}

/// A filter at work, which writes each section that it keeps at once.
#[derive(Drop)]
struct Filtering<'k, 'a, W> {
    kept: &'k Kept,
    /// The names found in kept sections, if names are looked for.
    found: BTreeSet<Cid>,
    output: &'a mut W,
}

impl<'k, 'a, W: Write> Filtering<'k, 'a, W> {
    /// Returns a filter that has taken no section.
    fn new(alloc: Global, kept: &'k Kept, output: &'a mut W) -> Filtering<'k, 'a, W>
        ensures kept { result.kept.now ≡ kept.now }
        ensures found { result.found.keys ≡ [] }
        ensures reference { result.output.ghost_name ≡ output.entry.ghost_name }
        ensures bytes { result.output.now ≡ output.old }
    {
        Filtering {
            kept,
            found: BTreeSet::new(alloc),
            output,
        }
    }
}

impl<W: Write> SectionSink for Filtering<'_, '_, W> {
    type Stop = ToolError;

    ghost takes = { λ s old result new. Filters s (filtering_work W.contents old) result
        (filtering_work W.contents new) };

    fn take(&mut self, section: &Section<'_>) -> Result<(), ToolError> {
        if !self.kept.keeps(&section.cid) {
            return Ok(());
        }
        note(self.kept, &mut self.found, &section.cid)?;
        send_section(section, self.output)
    }
}

/// Writes an error line for each name without a section. Returns whether there is none.
fn tell_missing<V: Write>(
    alloc: Global,
    kept: &Kept,
    found: &BTreeSet<Cid>,
    errors: &mut V,
) -> Result<bool, ToolError>
    ensures { TellsRest kept.now found.now.keys (Ok Whole) (V.contents errors.old) result
        (V.contents errors.new) }
{
    let missing = missing_of(alloc, kept, found)?;
    let lines = missing_lines(alloc, &missing)?;
    say((lines, missing.is_empty()), errors)
}

/// Writes the error lines after the sections. Returns whether all is well.
fn tell_rest<V: Write>(
    alloc: Global,
    kept: &Kept,
    found: &BTreeSet<Cid>,
    ended: Result<Ended<ToolError>, ToolError>,
    errors: &mut V,
) -> Result<bool, ToolError>
    ensures { TellsRest kept.now found.now.keys ended (V.contents errors.old) result
        (V.contents errors.new) }
{
    match ended? {
        Ended::Whole => tell_missing(alloc, kept, found, errors),
        Ended::Stopped(fault) => Err(fault),
        Ended::Fault(line) => say((line, false), errors),
    }
}

/// Writes the kept sections of the input after its header, up to `extent` if given, and the error
/// lines. Returns whether all is well.
fn filter_sections<'de, R: Read, W: Write, V: Write>(
    alloc: Global,
    filter: &Filter,
    input: &mut Input<'de, R>,
    extent: Option<u64>,
    output: &mut W,
    errors: &mut V,
) -> Result<bool, ToolError>
    ensures { FiltersSections filter.now (following extent (input_reading R.reading input.old))
        (run (W.contents output.old) (V.contents errors.old) result (W.contents output.new)
        (V.contents errors.new)) }
{
    let mut filtering = Filtering::new(alloc, &filter.kept, output);
    let ended = take_sections(alloc, &mut filtering, input, extent);
    let Filtering {
        kept,
        found,
        output,
    } = filtering;
    // No effect at run time. The proof reads what `output` holds from this use of it.
    let _ = &*output;
    tell_rest(alloc, kept, &found, ended, errors)
}

/// Writes the header of the new file, given the roots of the old one.
fn send_roots<W: Write>(
    alloc: Global,
    filter: &Filter,
    roots: &[Cid],
    output: &mut W,
) -> Result<(), ToolError>
    ensures { SaysText
        (header_bytes (forms (roots_of filter.now.roots.items filter.now.kept roots.now)))
        (W.contents output.old) result (W.contents output.new) }
{
    let roots = roots_of(alloc, &filter.roots, &filter.kept, roots)?;
    send_header(alloc, &roots, output)
}

/// Writes the new header, then the kept sections of the input after its header, and the error
/// lines. Returns whether all is well.
fn filter_after<'de, R: Read, W: Write, V: Write>(
    alloc: Global,
    filter: &Filter,
    roots: &[Cid],
    input: &mut Input<'de, R>,
    extent: Option<u64>,
    output: &mut W,
    errors: &mut V,
) -> Result<bool, ToolError>
    ensures { FiltersHeader filter.now roots.now (following extent (input_reading R.reading input.old))
        (run (W.contents output.old) (V.contents errors.old) result (W.contents output.new)
        (V.contents errors.new)) }
{
    send_roots(alloc, filter, roots, output)?;
    filter_sections(alloc, filter, input, extent, output, errors)
}

/// Writes the CAR file of what is kept of the source's file. Returns whether all is well.
fn filter_file<'de, R: Read, W: Write, V: Write>(
    alloc: Global,
    filter: &Filter,
    input: &mut Input<'de, R>,
    output: &mut W,
    errors: &mut V,
) -> Result<bool, ToolError>
    ensures { FiltersFile filter.now (input_reading R.reading input.old)
        (run (W.contents output.old) (V.contents errors.old) result (W.contents output.new)
        (V.contents errors.new)) }
{
    match pull_header(alloc, input) {
        Ok((roots, extent)) => filter_after(alloc, filter, &roots, input, extent, output, errors),
        Err(error) => {
            let line = fault_line(alloc, error)?;
            say_both((Vec::new(alloc), false), &line, output, errors)
        }
    }
}

/// Writes a CAR file of the kept sections of the input's CAR file, and an error line for each
/// wanted name without a section. If the input is not a CAR file, writes what is kept before the
/// fault, and a line that says why. Returns whether all is well. Holds one section at a time in
/// memory, and the names.
pub fn write_filtered<R: BufRead, W: Write, V: Write>(
    alloc: Global,
    filter: &Filter,
    input: &mut R,
    output: &mut W,
    errors: &mut V,
) -> Result<bool, ToolError>
    ensures { IfSome (R.remaining input.old) (λ b.
        SaysSent (IsFilteredFront filter.now b) (IsFiltered filter.now b) (W.contents output.old)
        (V.contents errors.old) result (W.contents output.new) (V.contents errors.new)) }
{
    let mut source = input_over(IoRefReader::new(input));
    filter_file(alloc, filter, &mut source, output, errors)
}

/// Reads all bytes of the input.
fn read_all<R: BufRead>(alloc: Global, input: &mut R) -> Result<Vec<u8>, ToolError>
    ensures { IfSome (R.remaining input.old) (λ b. IfOk result (λ v. v.items ≡ b)) }
{
    let mut bytes = Vec::new(alloc);
    match input.read_to_end(&mut bytes) {
        Ok(_count) => Ok(bytes),
        Err(e) if e.kind() == ErrorKind::OutOfMemory => Err(ToolError::OutOfMemory),
        Err(_) => Err(ToolError::Input),
    }
}

/// The same, for sections with these names.
fn write_named<R: BufRead, W: Write, V: Write>(
    alloc: Global,
    roots: Vec<Cid>,
    names: BTreeSet<Cid>,
    input: &mut R,
    output: &mut W,
    errors: &mut V,
) -> Result<bool, ToolError>
    ensures { IfSome (R.remaining input.old) (λ b. SaysSent
        (IsFilteredFront (record { roots = roots; kept = Named names }) b)
        (IsFiltered (record { roots = roots; kept = Named names }) b) (W.contents output.old)
        (V.contents errors.old) result (W.contents output.new) (V.contents errors.new)) }
{
    let filter = Filter {
        roots,
        kept: Kept::Named(names),
    };
    write_filtered(alloc, &filter, input, output, errors)
}

/// The same, for sections named in a list, one CID per line. If a line is not a CID, writes only an
/// error line that says which and why.
pub fn write_listed<L: BufRead, R: BufRead, W: Write, V: Write>(
    alloc: Global,
    roots: Vec<Cid>,
    list: &mut L,
    input: &mut R,
    output: &mut W,
    errors: &mut V,
) -> Result<bool, ToolError>
    ensures { IfSome (L.remaining list.old) (λ text. IfSome (R.remaining input.old) (λ b.
        SaysSent (IsFilteredByListFront roots.items text b)
        (IsFilteredByList roots.items text b) (W.contents output.old) (V.contents errors.old)
        result (W.contents output.new) (V.contents errors.new))) }
{
    let text = read_all(alloc, list)?;
    match names_in(alloc, &text)? {
        Ok(names) => write_named(alloc, roots, names, input, output, errors),
        Err(line) => say_both((Vec::new(alloc), false), &line, output, errors),
    }
}
