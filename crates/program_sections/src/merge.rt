//! `merge`: a CAR file of the sections of several files.

ghost use Rattle.std.specs.Prelude.{◌≡◌, ◌↔◌, ◌∷◌, [], List, ℕ, map, IfOk, IsTrue, OnOk};
ghost use Rattle.dagcbor_heads.specs.Inputs.{input_reading};
ghost use Rattle.dagcbor_items.specs.Walks.{forms};
ghost use Rattle.files_car.specs.Car.{header_bytes};
ghost use Rattle.ipld_links.specs.Held.{HoldsNone};
ghost use Rattle.ipld_links.specs.Verdicts.{IsVerified};
ghost use Rattle.program_parts.specs.Lines.{SaysText};
ghost use Rattle.program_sections.specs.Sending.{SaysSent};
ghost use Rattle.program_sections.specs.Merging.{file_line, IsMergedOf, IsMergedFront};
ghost use Rattle.program_sections.specs.MergeSteps.{merging_work, Merges, HoldsIt, AddsRoots, place_of};
ghost use Rattle.program_sections.specs.MergeSteps.{MergesFile, MergesFiles, AreLeft, BeginsAll};
ghost use Rattle.program_sections.specs.MergeSteps.{BeginsOne, TellsEnd, TellsFault, given_or, MergesSections, MergesBegun};
ghost use Rattle.program_sections.specs.Steps.{run};

use crate::kept::add_name;
use crate::send::{send_header, send_section};
use dagcbor_heads::{Input, Read};
use files_car::{Section, SectionSink, pull_header};
use ipld_links::{HeldNames, Verdict, verify};
use ipld_tree::Cid;
use program_parts::{Ended, fault_line, say, say_both, take_sections};
use program_shared::ToolError;
use std::alloc::{AllocError, Global};
use std::collections::BTreeSet;
use std::io::Write;

/// Roots, each once, in order of first occurrence.
#[derive(Drop)]
struct Roots {
    seen: BTreeSet<Cid>,
    listed: Vec<Cid>,
}

impl Roots {
    /// Returns no roots.
    fn new(alloc: Global) -> Roots
        ensures seen { result.seen.keys ≡ [] }
        ensures listed { result.listed.items ≡ [] }
    {
        Roots {
            seen: BTreeSet::new(alloc),
            listed: Vec::new(alloc),
        }
    }

    /// Adds the root, unless it was added before.
    fn add(&mut self, root: &Cid) -> Result<(), AllocError>
        ensures { OnOk result (AddsRoots (root.now ∷ []) self.old self.new) }
    {
        if self.seen.contains(root) {
            return Ok(());
        }
        add_name(&mut self.seen, root)?;
        self.listed.push(*root)?;
        Ok(())
    }

    /// Adds those of these roots that were not added before.
    fn add_all(&mut self, roots: &[Cid]) -> Result<(), AllocError>
        ensures { OnOk result (AddsRoots roots.now self.old self.new) }
    {
        for root in roots {
            self.add(root)?;
        }
        Ok(())
    }
}

/// A file whose header was read: its number, its input, and its length, if known.
#[derive(Drop)]
struct Following<'de, R> {
    number: usize,
    input: Input<'de, R>,
    extent: Option<u64>,
}

/// Files whose headers were read, and their roots.
#[derive(Drop)]
struct Begun<'de, R> {
    roots: Roots,
    files: Vec<Following<'de, R>>,
}

/// Returns an error line about the file with this number.
fn file_line(alloc: Global, number: usize, line: &[u8]) -> Result<Vec<u8>, AllocError>
    ensures { IfOk result (λ v. v.items ≡ file_line number line.now) }
{
    let mut told = format!(in alloc; "file {number}: ")?.into_bytes();
    told.extend_from_slice(line)?;
    Ok(told)
}

/// Reads the header of one more file. If it is refused, returns a line that says why.
fn begin<'de, R: Read>(
    alloc: Global,
    begun: &mut Begun<'de, R>,
    number: usize,
    mut input: Input<'de, R>,
) -> Result<Option<Vec<u8>>, ToolError>
    ensures { BeginsOne R.reading number (input_reading R.reading input.entry)
        begun.old result begun.new }
{
    match pull_header(alloc, &mut input) {
        Ok((roots, extent)) => {
            begun.roots.add_all(&roots)?;
            match begun.files.push(Following {
                number,
                input,
                extent,
            }) {
                Ok(()) => Ok(None),
                Err(_) => Err(ToolError::OutOfMemory),
            }
        }
        Err(error) => {
            let line = fault_line(alloc, error)?;
            Ok(Some(file_line(alloc, number, &line)?))
        }
    }
}

/// Reads the headers of all files. If one is refused, returns a line that says which and why.
fn begin_all<'de, R: Read>(
    alloc: Global,
    inputs: Vec<Input<'de, R>>,
) -> Result<Result<Begun<'de, R>, Vec<u8>>, ToolError>
    ensures { IfOk result (BeginsAll R.reading (map (input_reading R.reading) inputs.entry.items)) }
{
    let mut begun = Begun {
        roots: Roots::new(alloc),
        files: Vec::new(alloc),
    };
    let mut number = 0;
    for input in inputs {
        number += 1;
        if let Some(line) = begin(alloc, &mut begun, number, input)? {
            return Ok(Err(line));
        }
    }
    Ok(Ok(begun))
}

/// A merge at work, which writes sections as they come.
#[derive(Drop)]
struct Merging<'a, W> {
    /// The names of the sections whose bytes matched them.
    held: HeldNames,
    output: &'a mut W,
}

impl<'a, W: Write> Merging<'a, W> {
    /// Returns a merge that has taken no section.
    fn new(alloc: Global, output: &'a mut W) -> Merging<'a, W>
        ensures none { HoldsNone result.held }
        ensures reference { result.output.ghost_name ≡ output.entry.ghost_name }
        ensures bytes { result.output.now ≡ output.old }
    {
        Merging {
            held: HeldNames::new(alloc),
            output,
        }
    }
}

/// Returns whether the section's bytes match its name.
fn is_named(section: &Section<'_>) -> bool
    ensures { IsTrue result ↔ IsVerified (section.now.cid, section.now.block.now) }
{
    !matches!(
        verify(&section.cid, section.block),
        Verdict::OtherBytes | Verdict::Unverified
    )
}

/// Adds the section's name to those held, if its bytes match it.
fn hold(held: &mut HeldNames, section: &Section<'_>) -> Result<(), AllocError>
    ensures { OnOk result (HoldsIt (section.now.cid, section.now.block.now) held.old held.new) }
{
    if is_named(section) {
        return held.add(section.cid);
    }
    Ok(())
}

impl<W: Write> SectionSink for Merging<'_, W> {
    type Stop = ToolError;

    ghost takes = { λ s old result new. Merges s (merging_work W.contents old) result
        (merging_work W.contents new) };

    fn take(&mut self, section: &Section<'_>) -> Result<(), ToolError> {
        if self.held.contains(&section.cid) {
            return Ok(());
        }
        hold(&mut self.held, section)?;
        send_section(section, self.output)
    }
}

/// Returns the error line for the file with this number, if there is one.
fn told_of(
    alloc: Global,
    number: usize,
    ended: Result<Ended<ToolError>, ToolError>,
) -> Result<Option<Vec<u8>>, ToolError>
    ensures { TellsEnd number ended result }
{
    match ended? {
        Ended::Whole => Ok(None),
        Ended::Stopped(fault) => Err(fault),
        Ended::Fault(line) => Ok(Some(file_line(alloc, number, &line)?)),
    }
}

/// Writes the sections of one file, or those before a fault, for which it returns a line.
fn merge_file<'de, R: Read, W: Write>(
    alloc: Global,
    merging: &mut Merging<'_, W>,
    file: Following<'de, R>,
) -> Result<Option<Vec<u8>>, ToolError>
    ensures { MergesFile (place_of R.reading file.entry) (merging_work W.contents merging.old) result
        (merging_work W.contents merging.new) }
{
    let Following {
        number,
        mut input,
        extent,
    } = file;
    let ended = take_sections(alloc, merging, &mut input, extent);
    told_of(alloc, number, ended)
}

/// Writes the sections of all files, one after the other, up to the first fault.
fn merge_files<'de, R: Read, W: Write>(
    alloc: Global,
    merging: &mut Merging<'_, W>,
    files: Vec<Following<'de, R>>,
) -> Result<Option<Vec<u8>>, ToolError>
    ensures { MergesFiles (map (place_of R.reading) files.entry.items)
        (merging_work W.contents merging.old) result (merging_work W.contents merging.new) }
{
    for file in files {
        if let Some(line) = merge_file(alloc, merging, file)? {
            return Ok(Some(line));
        }
    }
    Ok(None)
}

/// Writes the header with the roots given, or else with those of the files.
fn send_roots<W: Write>(
    alloc: Global,
    given: &[Cid],
    roots: &[Cid],
    output: &mut W,
) -> Result<(), ToolError>
    ensures { SaysText (header_bytes (forms (given_or given.now roots.now))) (W.contents output.old)
        result (W.contents output.new) }
{
    if given.is_empty() {
        return send_header(alloc, roots, output);
    }
    send_header(alloc, given, output)
}

/// Writes the error line after the sections, if any. Returns whether there is none.
fn tell_end<V: Write>(
    told: Result<Option<Vec<u8>>, ToolError>,
    errors: &mut V,
) -> Result<bool, ToolError>
    ensures { TellsFault told (V.contents errors.old) result (V.contents errors.new) }
{
    match told? {
        None => Ok(true),
        Some(line) => say((line, false), errors),
    }
}

/// Writes the merged sections of these files. Returns whether all are CAR files.
fn merge_sections<'de, R: Read, W: Write, V: Write>(
    alloc: Global,
    files: Vec<Following<'de, R>>,
    output: &mut W,
    errors: &mut V,
) -> Result<bool, ToolError>
    ensures { MergesSections (map (place_of R.reading) files.entry.items) (run (W.contents output.old)
        (V.contents errors.old) result (W.contents output.new) (V.contents errors.new)) }
{
    let mut merging = Merging::new(alloc, output);
    let told = merge_files(alloc, &mut merging, files);
    let Merging {
        held: _held,
        output,
    } = merging;
    // No effect at run time. The proof reads what `output` holds from this use of it.
    let _ = &*output;
    tell_end(told, errors)
}

/// Writes the merged CAR file of these files. Returns whether all are CAR files.
fn merge_begun<'de, R: Read, W: Write, V: Write>(
    alloc: Global,
    given: &[Cid],
    begun: Begun<'de, R>,
    output: &mut W,
    errors: &mut V,
) -> Result<bool, ToolError>
    ensures { MergesBegun given.now begun.entry.roots.listed.items
        (map (place_of R.reading) begun.entry.files.items)
        (run (W.contents output.old) (V.contents errors.old) result (W.contents output.new)
        (V.contents errors.new)) }
{
    let Begun { roots, files } = begun;
    send_roots(alloc, given, &roots.listed, output)?;
    merge_sections(alloc, files, output, errors)
}

/// Writes the CAR file of the sections of these files, in order. Leaves out each section with the
/// CID of an earlier one whose bytes match it. If one of the files is not a CAR file, writes what
/// comes before the fault, and a line that says which and why. Returns whether all is well. Holds
/// all files open, and one section at a time in memory, and the names.
pub fn write_merged<'de, R: Read, W: Write, V: Write>(
    alloc: Global,
    given: &[Cid],
    inputs: Vec<Input<'de, R>>,
    output: &mut W,
    errors: &mut V,
) -> Result<bool, ToolError>
    ensures { (bs : List (List ℕ)) → AreLeft (map (input_reading R.reading) inputs.entry.items) bs
        → SaysSent (IsMergedFront given.now bs) (IsMergedOf given.now bs) (W.contents output.old)
        (V.contents errors.old) result (W.contents output.new) (V.contents errors.new) }
{
    match begin_all(alloc, inputs)? {
        Ok(begun) => merge_begun(alloc, given, begun, output, errors),
        Err(line) => say_both((Vec::new(alloc), false), &line, output, errors),
    }
}
