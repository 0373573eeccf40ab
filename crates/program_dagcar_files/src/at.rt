//! `at` and `prove`: what a path leads to in a random-access file.

ghost use Rattle.std.specs.Prelude.{◌≡◌, IfSome};
ghost use Rattle.ipld_paths.specs.Paths.{segments};
ghost use Rattle.program_parts.specs.Lines.{SaysBoth};
ghost use Rattle.program_parts.specs.Paths.{path_part};
ghost use Rattle.program_parts.specs.Paths.{IsAnswerOfFile};
ghost use Rattle.program_dagcar_files.specs.PathAnswers.{asking, IsAnswerPast, IsAnswerNamed};

use files_index::{ReadAt, buffered_from};
use ipld_tree::Cid;
use program_dagcar::{Command, run};
use program_index::{Gathered, gather_way};
use program_parts::{Asked, say_asked, split_path};
use program_shared::{ToolError, write_all};
use std::alloc::Global;
use std::io::Write;

/// The error line if the index does not lead to a block on the way that the file has.
const NO_ENTRY: &str = "dagcar: the index has no right entry of a block on the way\n";

/// Returns the command that asks this about the root.
fn asking(asked: Asked, root: &Cid) -> Command
    ensures { result ≡ asking asked root.now }
{
    match asked {
        Asked::Data => Command::At(*root),
        Asked::Bytes => Command::Raw(*root),
        Asked::Proof => Command::Prove(*root),
    }
}

/// Writes the answer over the whole file, which is read from its start.
fn write_whole<S: ReadAt, W: Write, V: Write>(
    alloc: Global,
    asked: Asked,
    root: &Cid,
    text: &str,
    source: &S,
    output: &mut W,
    errors: &mut V,
) -> Result<bool, ToolError>
    ensures { IfSome (S.bytes source.now) (λ b.
        SaysBoth (IsAnswerOfFile asked root.now (segments (path_part text.now)) b)
        (W.contents output.old) (V.contents errors.old) result (W.contents output.new)
        (V.contents errors.new)) }
{
    match buffered_from(alloc, source, 0) {
        Ok(mut input) => run(alloc, asking(asked, root), text, &mut input, output, errors),
        Err(_) => Err(ToolError::OutOfMemory),
    }
}

/// The same, with an error line if there is an answer, since the index did not lead to it.
fn write_past<S: ReadAt, W: Write, V: Write>(
    alloc: Global,
    asked: Asked,
    root: &Cid,
    text: &str,
    source: &S,
    output: &mut W,
    errors: &mut V,
) -> Result<bool, ToolError>
    ensures { IfSome (S.bytes source.now) (λ b.
        SaysBoth (IsAnswerPast asked root.now (segments (path_part text.now)) b)
        (W.contents output.old) (V.contents errors.old) result (W.contents output.new)
        (V.contents errors.new)) }
{
    let well = write_whole(alloc, asked, root, text, source, output, errors)?;
    if well {
        write_all(errors, NO_ENTRY.as_bytes())?;
    }
    Ok(well)
}

/// Writes the answer for the path in the text, from the root, in a random-access file, or an error
/// line that says why there is none. Returns whether there is one. Looks the blocks on the way up
/// in the file's index, if it has one. If the index does not lead to one of them, reads the file
/// from its start.
pub fn write_asked_named<S: ReadAt, W: Write, V: Write>(
    alloc: Global,
    asked: Asked,
    root: &Cid,
    text: &str,
    source: &S,
    output: &mut W,
    errors: &mut V,
) -> Result<bool, ToolError>
    ensures { IfSome (S.bytes source.now) (λ b.
        SaysBoth (IsAnswerNamed asked root.now (segments (path_part text.now)) b)
        (W.contents output.old) (V.contents errors.old) result (W.contents output.new)
        (V.contents errors.new)) }
{
    let (_name, path) = split_path(text);
    match gather_way(alloc, source, root, path)? {
        Gathered::Blocks(blocks) => say_asked(alloc, asked, root, path, &blocks, output, errors),
        Gathered::NoEntry => write_past(alloc, asked, root, text, source, output, errors),
        Gathered::NoIndex => write_whole(alloc, asked, root, text, source, output, errors),
    }
}
