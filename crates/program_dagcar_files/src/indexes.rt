//! What the program says about random-access files and their index.

ghost use Rattle.std.specs.Prelude.{◌≡◌, ◌&&◌, IfSome};
ghost use Rattle.program_parts.specs.Lines.{SaysBoth};
ghost use Rattle.program_dagcar.specs.Answers.{check_speech, SaysWithPlaces};
ghost use Rattle.program_inspect.specs.Inspecting.{IsInspected};
ghost use Rattle.program_dagcar_files.specs.Indexes.{AreEntriesSaid, IsIndexJudged, IsIndexBeside, SaysChecked};
ghost use Rattle.program_dagcar_files.specs.Indexes.{IsInspectedHere};

use crate::answers::{beside_answer, judged_answer, listing_answer, word_of};
use files_index::{ReadAt, buffered_from};
use program_dagcar::{Command, run};
use program_index::{judge_index, list_index};
use program_inspect::{Form, Index, write_inspected};
use program_parts::say_both;
use program_shared::ToolError;
use std::alloc::Global;
use std::io::Write;

/// Writes the entries of the file's index, or why there are none. Returns whether there is an
/// index.
pub fn write_entries<S: ReadAt, W: Write, V: Write>(
    alloc: Global,
    source: &S,
    output: &mut W,
    errors: &mut V,
) -> Result<bool, ToolError>
    ensures { IfSome (S.bytes source.now) (λ b.
        SaysBoth (AreEntriesSaid b) (W.contents output.old) (V.contents errors.old) result
        (W.contents output.new) (V.contents errors.new)) }
{
    let listed = list_index(alloc, source)?;
    let (said, told) = listing_answer(alloc, listed)?;
    say_both(said, &told, output, errors)
}

/// Writes what is wrong with the file's index. Returns whether it is right.
pub fn write_judged<S: ReadAt, W: Write, V: Write>(
    alloc: Global,
    source: &S,
    output: &mut W,
    errors: &mut V,
) -> Result<bool, ToolError>
    ensures { IfSome (S.bytes source.now) (λ b.
        SaysBoth (IsIndexJudged b) (W.contents output.old) (V.contents errors.old) result
        (W.contents output.new) (V.contents errors.new)) }
{
    let judged = judge_index(alloc, source)?;
    let (said, told) = judged_answer(alloc, judged)?;
    say_both(said, &told, output, errors)
}

/// Writes what `check` says about any file.
fn write_verdicts<S: ReadAt, W: Write, V: Write>(
    alloc: Global,
    source: &S,
    output: &mut W,
    errors: &mut V,
) -> Result<bool, ToolError>
    ensures { IfSome (S.bytes source.now) (λ b. SaysWithPlaces check_speech b
        (W.contents output.old) (V.contents errors.old) result (W.contents output.new)
        (V.contents errors.new)) }
{
    match buffered_from(alloc, source, 0) {
        Ok(mut input) => run(alloc, Command::Check, "", &mut input, output, errors),
        Err(_) => Err(ToolError::OutOfMemory),
    }
}

/// Writes what is wrong with the file's index, if it has one. Returns whether all is well.
fn write_beside<S: ReadAt, W: Write, V: Write>(
    alloc: Global,
    source: &S,
    output: &mut W,
    errors: &mut V,
) -> Result<bool, ToolError>
    ensures { IfSome (S.bytes source.now) (λ b.
        SaysBoth (IsIndexBeside b) (W.contents output.old) (V.contents errors.old) result
        (W.contents output.new) (V.contents errors.new)) }
{
    let judged = judge_index(alloc, source)?;
    let (said, told) = beside_answer(alloc, judged)?;
    say_both(said, &told, output, errors)
}

/// Returns whether both are true.
fn both(first: bool, second: bool) -> bool
    ensures { result ≡ (first && second) }
{
    first && second
}

/// Writes what `check` says about any file, and then what is wrong with its index, if it has one.
/// Returns whether all is well.
pub fn write_checked<S: ReadAt, W: Write, V: Write>(
    alloc: Global,
    source: &S,
    output: &mut W,
    errors: &mut V,
) -> Result<bool, ToolError>
    ensures { IfSome (S.bytes source.now) (λ b. SaysChecked b (W.contents output.old)
        (V.contents errors.old) result (W.contents output.new) (V.contents errors.new)) }
{
    let well = write_verdicts(alloc, source, output, errors)?;
    let right = write_beside(alloc, source, output, errors)?;
    Ok(both(well, right))
}

/// Writes what the file holds, with this word for its index.
fn write_with<S: ReadAt, W: Write, V: Write>(
    alloc: Global,
    form: Form,
    index: Index,
    source: &S,
    output: &mut W,
    errors: &mut V,
) -> Result<bool, ToolError>
    ensures { IfSome (S.bytes source.now) (λ b.
        SaysBoth (IsInspected form index b) (W.contents output.old) (V.contents errors.old) result
        (W.contents output.new) (V.contents errors.new)) }
{
    match buffered_from(alloc, source, 0) {
        Ok(mut input) => write_inspected(alloc, form, index, &mut input, output, errors),
        Err(_) => Err(ToolError::OutOfMemory),
    }
}

/// Writes what the file holds, in this form, and whether its index is right. Reads the file once
/// for the index, and then once more.
pub fn write_inspected_here<S: ReadAt, W: Write, V: Write>(
    alloc: Global,
    form: Form,
    source: &S,
    output: &mut W,
    errors: &mut V,
) -> Result<bool, ToolError>
    ensures { IfSome (S.bytes source.now) (λ b.
        SaysBoth (IsInspectedHere form b) (W.contents output.old) (V.contents errors.old) result
        (W.contents output.new) (V.contents errors.new)) }
{
    let judged = judge_index(alloc, source)?;
    write_with(alloc, form, word_of(&judged), source, output, errors)
}
