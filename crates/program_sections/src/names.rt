//! A list of CIDs, one per line.

ghost use Rattle.std.specs.Prelude.{◌≡◌, IfOk};
ghost use Rattle.program_sections.specs.Lists.{wrong_line, ReadsNames};

use crate::kept::add_name;
use bstr::ByteSlice;
use ipld_tree::Cid;
use program_parts::no_cid_line;
use std::alloc::{AllocError, Global};
use std::collections::BTreeSet;
use text_cid::{CidTextError, cid_from_text};

/// Returns the error line for a line of the list that is not a CID.
fn wrong_line(alloc: Global, number: usize, fault: &CidTextError) -> Result<Vec<u8>, AllocError>
    ensures { IfOk result (λ v. v.items ≡ wrong_line number fault.now) }
{
    let mut told = format!(in alloc; "line {number}: ")?.into_bytes();
    told.extend_from_slice(no_cid_line(fault).as_bytes())?;
    Ok(told)
}

/// Reads the CIDs in the text, one per line. If a line is not a CID, returns a line that says which
/// and why.
pub(crate) fn names_in(
    alloc: Global,
    text: &[u8],
) -> Result<Result<BTreeSet<Cid>, Vec<u8>>, AllocError>
    ensures { IfOk result (ReadsNames text.now) }
{
    let mut names = BTreeSet::new(alloc);
    let mut number = 0;
    for line in text.lines() {
        number += 1;
        match cid_from_text(line) {
            Ok(name) => add_name(&mut names, &name)?,
            Err(fault) => return Ok(Err(wrong_line(alloc, number, &fault)?)),
        }
    }
    Ok(Ok(names))
}
