//! `ls` and `cat`: IPFS files and directories.

ghost use Rattle.std.specs.Prelude.{IfSome};
ghost use Rattle.ipld_paths.specs.Paths.{segments};
ghost use Rattle.program_parts.specs.Lines.{SaysBoth};
ghost use Rattle.program_dagcar.specs.Files.{IsListingOfFile, SaysFileOf};

use ipld_tree::Cid;
use program_parts::{Kept, held_of, say_both, say_entries, say_file};
use program_shared::ToolError;
use std::alloc::Global;
use std::io::{BufRead, Write};

/// Lists the entries under the path of names from the root, over the blocks of the input's CAR
/// file, or writes an error line that says why there is nothing to list. Returns whether all is
/// well. Holds the blocks of the input in memory.
pub fn write_entries<R: BufRead, W: Write, V: Write>(
    alloc: Global,
    root: &Cid,
    path: &str,
    input: &mut R,
    output: &mut W,
    errors: &mut V,
) -> Result<bool, ToolError>
    ensures { IfSome (R.remaining input.old) (λ b.
        SaysBoth (IsListingOfFile root.now (segments path.now) b) (W.contents output.old)
        (V.contents errors.old) result (W.contents output.new) (V.contents errors.new)) }
{
    match held_of(alloc, Kept::All, input) {
        Ok(Ok(held)) => say_entries(alloc, root, path, &held.blocks, output, errors),
        Ok(Err(line)) => say_both((Vec::new(alloc), false), &line, output, errors),
        Err(fault) => Err(fault),
    }
}

/// Writes the bytes of the file that the path of names leads to from the root, over the blocks of
/// the input's CAR file, or an error line: why the output ends early, or why there is no file.
/// Returns whether the file is whole. Holds the blocks of the input in memory.
pub fn write_file<R: BufRead, W: Write, V: Write>(
    alloc: Global,
    root: &Cid,
    path: &str,
    input: &mut R,
    output: &mut W,
    errors: &mut V,
) -> Result<bool, ToolError>
    ensures { IfSome (R.remaining input.old) (λ b.
        SaysFileOf root.now (segments path.now) b (W.contents output.old)
        (V.contents errors.old) result (W.contents output.new) (V.contents errors.new)) }
{
    match held_of(alloc, Kept::All, input) {
        Ok(Ok(held)) => say_file(alloc, root, path, &held.blocks, output, errors),
        Ok(Err(line)) => say_both((Vec::new(alloc), false), &line, output, errors),
        Err(fault) => Err(fault),
    }
}
