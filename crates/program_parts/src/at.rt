//! `at` and `prove`: a name and a path, and what the path leads to in a CAR file.

ghost use Rattle.std.specs.Prelude.{◌≡◌, IfSome};
ghost use Rattle.ipld_paths.specs.Paths.{segments};
ghost use Rattle.ipld_links.specs.Reaching.{stored_in};
ghost use Rattle.program_parts.specs.Lines.{SaysBoth};
ghost use Rattle.program_parts.specs.Paths.{name_part, path_part, IsAtOf, IsAnswerOf, IsAnswerOfFile};

use crate::data::say_shown;
use crate::end::say_end;
use crate::holding::{Kept, held_of};
use crate::line::say_both;
use crate::proof::say_proof;
use crate::raw::say_raw;
use ipld_paths::{item_bytes, resolve};
use ipld_tree::Cid;
use program_shared::ToolError;
use std::alloc::Global;
use std::collections::BTreeMap;
use std::io::{BufRead, Write};

/// What is asked about a path.
#[derive(Clone, Copy)]
pub enum Asked {
    /// The data of the item, as DAG-JSON.
    Data,
    /// The bytes of the item.
    Bytes,
    /// The CAR file that proves what the path leads to.
    Proof,
}

/// Splits a text at its first slash into a name and a path. The path is empty if there is no slash.
pub fn split_path(text: &str) -> (&str, &str)
    ensures name { result.0.now ≡ name_part text.now }
    ensures path { result.1.now ≡ path_part text.now }
{
    match text.split_once('/') {
        Some((name, path)) => (name, path),
        None => (text, ""),
    }
}

/// Writes what the path leads to from the root, or an error line that says why it leads to nothing.
/// Returns whether it leads to something.
fn say_at<W: Write, V: Write>(
    alloc: Global,
    root: &Cid,
    path: &str,
    blocks: &BTreeMap<Cid, Vec<u8>>,
    output: &mut W,
    errors: &mut V,
) -> Result<bool, ToolError>
    ensures { SaysBoth (IsAtOf (stored_in blocks.now) root.now (segments path.now))
        (W.contents output.old) (V.contents errors.old) result
        (W.contents output.new) (V.contents errors.new) }
{
    let resolved = match resolve(alloc, blocks, root, path) {
        Ok(resolved) => resolved,
        Err(_) => return Err(ToolError::OutOfMemory),
    };
    match item_bytes(alloc, blocks, &resolved)? {
        Some(item) => say_shown(alloc, item.bytes(), output, errors),
        None => say_end(alloc, &resolved, output, errors),
    }
}

/// Writes the answer for the path from the root, or an error line that says why there is none.
/// Returns whether there is one.
pub fn say_asked<W: Write, V: Write>(
    alloc: Global,
    asked: Asked,
    root: &Cid,
    path: &str,
    blocks: &BTreeMap<Cid, Vec<u8>>,
    output: &mut W,
    errors: &mut V,
) -> Result<bool, ToolError>
    ensures { SaysBoth (IsAnswerOf asked root.now (segments path.now) (stored_in blocks.now))
        (W.contents output.old) (V.contents errors.old) result
        (W.contents output.new) (V.contents errors.new) }
{
    match asked {
        Asked::Data => say_at(alloc, root, path, blocks, output, errors),
        Asked::Bytes => say_raw(alloc, root, path, blocks, output, errors),
        Asked::Proof => say_proof(alloc, root, path, blocks, output, errors),
    }
}

/// Writes the answer for the path from the root over the blocks of the input's CAR file, or an
/// error line: why there is no answer, or why the input is not a CAR file. Returns whether there is
/// an answer. Holds the blocks of the input in memory.
pub fn write_asked<R: BufRead, W: Write, V: Write>(
    alloc: Global,
    asked: Asked,
    root: &Cid,
    path: &str,
    input: &mut R,
    output: &mut W,
    errors: &mut V,
) -> Result<bool, ToolError>
    ensures { IfSome (R.remaining input.old) (λ b.
        SaysBoth (IsAnswerOfFile asked root.now (segments path.now) b) (W.contents output.old)
        (V.contents errors.old) result (W.contents output.new) (V.contents errors.new)) }
{
    match held_of(alloc, Kept::All, input) {
        Ok(Ok(held)) => say_asked(alloc, asked, root, path, &held.blocks, output, errors),
        Ok(Err(line)) => say_both((Vec::new(alloc), false), &line, output, errors),
        Err(fault) => Err(fault),
    }
}
