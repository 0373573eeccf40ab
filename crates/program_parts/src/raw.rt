//! The bytes of the item that a path leads to.

ghost use Rattle.ipld_paths.specs.Paths.{segments};
ghost use Rattle.ipld_links.specs.Reaching.{stored_in};
ghost use Rattle.program_parts.specs.Lines.{SaysBoth};
ghost use Rattle.program_parts.specs.Raw.{IsRawOf};

use crate::end::say_end;
use ipld_paths::{item_bytes, resolve};
use ipld_tree::Cid;
use program_shared::{ToolError, write_all};
use std::alloc::Global;
use std::collections::BTreeMap;
use std::io::Write;

/// Writes the bytes of the item that the path leads to from the root, which are a block, or an
/// error line that says why it leads to none. Returns whether it leads to one.
pub fn say_raw<W: Write, V: Write>(
    alloc: Global,
    root: &Cid,
    path: &str,
    blocks: &BTreeMap<Cid, Vec<u8>>,
    output: &mut W,
    errors: &mut V,
) -> Result<bool, ToolError>
    ensures { SaysBoth (IsRawOf (stored_in blocks.now) root.now (segments path.now))
        (W.contents output.old) (V.contents errors.old) result
        (W.contents output.new) (V.contents errors.new) }
{
    let resolved = match resolve(alloc, blocks, root, path) {
        Ok(resolved) => resolved,
        Err(_) => return Err(ToolError::OutOfMemory),
    };
    match item_bytes(alloc, blocks, &resolved)? {
        Some(item) => {
            write_all(output, item.bytes())?;
            Ok(true)
        }
        None => say_end(alloc, &resolved, output, errors),
    }
}
