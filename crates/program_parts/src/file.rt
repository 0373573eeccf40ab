//! `cat`: the bytes of the file that a path of names leads to.

ghost use Rattle.ipld_paths.specs.Paths.{segments};
ghost use Rattle.ipld_links.specs.Reaching.{stored_in};
ghost use Rattle.program_parts.specs.FileNames.{SaysFile};

use crate::content::say_content;
use crate::file_names::{find_named, names_line};
use crate::line::say_both;
use ipld_tree::Cid;
use program_shared::ToolError;
use std::alloc::Global;
use std::collections::BTreeMap;
use std::io::Write;

/// Writes the bytes of the file that the path leads to from the root, block by block as they are
/// verified, or an error line: why they end early, or why the path leads nowhere. Returns whether
/// the file is whole.
pub fn say_file<W: Write, V: Write>(
    alloc: Global,
    root: &Cid,
    path: &str,
    blocks: &BTreeMap<Cid, Vec<u8>>,
    output: &mut W,
    errors: &mut V,
) -> Result<bool, ToolError>
    ensures { SaysFile (stored_in blocks.now) root.now (segments path.now)
        (W.contents output.old) (V.contents errors.old) result (W.contents output.new)
        (V.contents errors.new) }
{
    match find_named(blocks, root, path) {
        Ok(found) => say_content(alloc, &found, blocks, output, errors),
        Err(end) => {
            let line = names_line(alloc, &end)?;
            say_both((Vec::new(alloc), false), &line, output, errors)
        }
    }
}
