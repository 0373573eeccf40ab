//! `index`: a CAR file of version 2 with an index of its sections.

ghost use Rattle.std.specs.Prelude.{IfOk, IfSome};
ghost use Rattle.program_index.specs.Indexed.{IsIndexed, SaysSome};
ghost use Rattle.program_index.specs.Steps.{ArePartsOf, SendsFile};

use crate::copy::send_between;
use crate::gather::{Gathered, gather_at};
use crate::header::header_of;
use crate::layout::data_begin;
use arrayvec::ArrayVec;
use files_index::{ReadAt, encode_index};
use program_parts::say_both;
use program_shared::ToolError;
use std::alloc::Global;
use std::io::Write;

/// The bytes before and after the CARv1 payload, and where it begins in the source.
#[derive(Drop)]
pub(crate) struct Parts {
    before: ArrayVec<u8, 51>,
    begin: u64,
    following: Vec<u8>,
}

/// Returns the bytes before and after the CARv1 payload, and where it begins in the source.
fn parts_of<S: ReadAt>(alloc: Global, source: &S, found: &Gathered) -> Result<Parts, ToolError>
    ensures { IfSome (S.bytes source.now) (λ b. IfOk result (ArePartsOf b found.now)) }
{
    let following = encode_index(alloc, &found.entries)?;
    let begin = data_begin(source)?;
    match header_of(found.length) {
        Some(before) => Ok(Parts {
            before,
            begin,
            following,
        }),
        None => Err(ToolError::OutOfMemory),
    }
}

/// Writes the CAR file of version 2, given what was gathered.
fn say_indexed<S: ReadAt, W: Write>(
    alloc: Global,
    source: &S,
    found: &Gathered,
    output: &mut W,
) -> Result<bool, ToolError>
    ensures { IfSome (S.bytes source.now) (λ b. SendsFile found.now b (W.contents output.old) result
        (W.contents output.new)) }
{
    let parts = parts_of(alloc, source, found)?;
    send_between(
        &parts.before,
        source,
        parts.begin,
        found.length,
        &parts.following,
        output,
    )?;
    Ok(true)
}

/// Writes a CAR file of version 2 with the roots and sections of the random-access file, and an
/// index of all sections; or an error line that says why it is not a CAR file. Returns whether it
/// is one. Holds one section at a time in memory, and the entries.
pub fn write_index<S: ReadAt, W: Write, V: Write>(
    alloc: Global,
    source: &S,
    output: &mut W,
    errors: &mut V,
) -> Result<bool, ToolError>
    ensures { IfSome (S.bytes source.now) (λ b.
        SaysSome (IsIndexed b) (W.contents output.old) (V.contents errors.old) result
        (W.contents output.new) (V.contents errors.new)) }
{
    match gather_at(alloc, source)? {
        Ok(found) => say_indexed(alloc, source, &found, output),
        Err(line) => say_both((Vec::new(alloc), false), &line, output, errors),
    }
}
