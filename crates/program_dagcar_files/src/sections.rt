//! CAR files made of the sections of others, with the exit status.

ghost use Rattle.std.specs.Prelude.{◌≡◌, ◌≢◌, map, IfSome, IsOk, Result, Bool, Option, List, ℕ};
ghost use Rattle.program_dagcar.specs.Answers.{EndsSo};
ghost use Rattle.program_shared.specs.declared.fault.ToolError.{ToolError};
ghost use Rattle.program_sections.specs.Sending.{SaysSent};
ghost use Rattle.program_sections.specs.Filtering.{IsFiltered, IsFilteredFront};
ghost use Rattle.dagcbor_heads.specs.Inputs.{input_reading};
ghost use Rattle.program_sections.specs.Merging.{IsMergedOf, IsMergedFront};
ghost use Rattle.program_sections.specs.MergeSteps.{AreLeft};
ghost use Rattle.program_sections.specs.Lists.{IsFilteredByList, IsFilteredByListFront};
ghost use Rattle.program_sections.specs.Splitting.{Splits, making};
ghost use Rattle.program_sections.specs.declared.split.SplitEnd.{SplitEnd};
ghost use Rattle.program_dagcar_files.specs.Splits.{SplitEndsSo};

use dagcbor_heads::{Input, Read};
use ipld_tree::Cid;
use program_dagcar::status_of;
use program_sections::{
    Filter, NewFiles, Split, SplitEnd, write_filtered, write_listed, write_merged, write_split,
};
use std::alloc::Global;
use std::io::{BufRead, Write};

/// Writes the CAR file of the sections that are kept. Returns the exit status.
pub fn run_filter<R: BufRead, W: Write, V: Write>(
    alloc: Global,
    filter: &Filter,
    input: &mut R,
    output: &mut W,
    errors: &mut V,
) -> u8
    ensures { IfSome (R.remaining input.old) (λ b. (ended : Result Bool ToolError)
        × (after : Option (List ℕ)) × EndsSo ended result
        × SaysSent (IsFilteredFront filter.now b) (IsFiltered filter.now b)
        (W.contents output.old) (V.contents errors.old) ended (W.contents output.new) after
        × (result ≢ 2 → V.contents errors.new ≡ after)) }
{
    let ended = write_filtered(alloc, filter, input, output, errors);
    status_of(ended, errors)
}

/// Writes the CAR file of the sections with the names in the list. Returns the exit status.
pub fn run_listed<L: BufRead, R: BufRead, W: Write, V: Write>(
    alloc: Global,
    roots: Vec<Cid>,
    list: &mut L,
    input: &mut R,
    output: &mut W,
    errors: &mut V,
) -> u8
    ensures { IfSome (L.remaining list.old) (λ text. IfSome (R.remaining input.old) (λ b.
        (ended : Result Bool ToolError) × (after : Option (List ℕ)) × EndsSo ended result
        × SaysSent (IsFilteredByListFront roots.items text b)
        (IsFilteredByList roots.items text b) (W.contents output.old) (V.contents errors.old)
        ended (W.contents output.new) after × (result ≢ 2 → V.contents errors.new ≡ after))) }
{
    let ended = write_listed(alloc, roots, list, input, output, errors);
    status_of(ended, errors)
}

/// Writes the CAR file of the sections of these files. Returns the exit status.
pub fn run_merged<'de, R: Read, W: Write, V: Write>(
    alloc: Global,
    given: &[Cid],
    inputs: Vec<Input<'de, R>>,
    output: &mut W,
    errors: &mut V,
) -> u8
    ensures { (bs : List (List ℕ)) → AreLeft (map (input_reading R.reading) inputs.entry.items) bs
        → (ended : Result Bool ToolError) × (after : Option (List ℕ)) × EndsSo ended result
        × SaysSent (IsMergedFront given.now bs) (IsMergedOf given.now bs) (W.contents output.old)
        (V.contents errors.old) ended (W.contents output.new) after
        × (result ≢ 2 → V.contents errors.new ≡ after) }
{
    let ended = write_merged(alloc, given, inputs, output, errors);
    status_of(ended, errors)
}

/// Makes the files of a file's parts. Returns the exit status, which is 2 if the name of a part is
/// taken.
pub fn run_split<R: BufRead, N: NewFiles, V: Write>(
    alloc: Global,
    asked: &Split<'_>,
    input: &mut R,
    files: &mut N,
    errors: &mut V,
) -> u8
    ensures { IfSome (R.remaining input.old) (λ b. (ended : Result SplitEnd ToolError)
        × (after : Option (List ℕ)) × SplitEndsSo ended result
        × Splits asked.now b (making (N.whole files.old) (N.whole files.new) (N.has files.new))
        (V.contents errors.old) ended after × (IsOk ended → V.contents errors.new ≡ after)) }
{
    match write_split(alloc, asked, input, files, errors) {
        Ok(SplitEnd::Whole) => 0,
        Ok(SplitEnd::Fault) => 1,
        Ok(SplitEnd::Exists) => 2,
        Err(fault) => status_of(Err(fault), errors),
    }
}
