//! What programs say of a path that does not end at an item.

ghost use Rattle.std.specs.Prelude.{◌≡◌, [], false, IfOk};
ghost use Rattle.program_parts.specs.Lines.{SaysBoth};
ghost use Rattle.program_parts.specs.Ends.{end_line};

use crate::line::{line_of, missing_line, say_both};
use crate::verdict::verdict_line;
use ipld_paths::{End, Resolved};
use ipld_tree::Cid;
use program_shared::ToolError;
use std::alloc::{AllocError, Global};
use std::io::Write;
use text_cid::cid_text;

/// Returns the line that says why a path does not end at an item, in this block.
pub fn end_told(alloc: Global, block: &Cid, end: &End<'_>) -> Result<Vec<u8>, AllocError>
    ensures { IfOk result (λ v. v.items ≡ end_line block.now end.now) }
{
    match end {
        End::Item(_, _, _) => Ok(Vec::new(alloc)),
        End::NoSuchPath(left) => {
            line_of(
                alloc,
                &cid_text(block),
                b" has nothing at ",
                left.as_bytes(),
            )
        }
        End::NotHeld => missing_line(alloc, block),
        End::NoBlock(verdict) => {
            let (line, _well) = verdict_line(alloc, block, verdict)?;
            Ok(line)
        }
        End::NoModel => line_of(alloc, &cid_text(block), b" refused NameNotText", b""),
        End::Endless => line_of(alloc, &cid_text(block), b" leads on", b""),
    }
}

/// Writes why a path does not end at an item.
pub fn say_end<W: Write, V: Write>(
    alloc: Global,
    resolved: &Resolved<'_>,
    output: &mut W,
    errors: &mut V,
) -> Result<bool, ToolError>
    ensures { SaysBoth (λ well out told. (well ≡ false) × (out ≡ [])
        × (told ≡ end_line resolved.now.block resolved.now.end))
        (W.contents output.old) (V.contents errors.old) result
        (W.contents output.new) (V.contents errors.new) }
{
    match end_told(alloc, &resolved.block, &resolved.end) {
        Ok(line) => say_both((Vec::new(alloc), false), &line, output, errors),
        Err(_) => Err(ToolError::OutOfMemory),
    }
}
