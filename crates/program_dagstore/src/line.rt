//! The lines that only this program writes.

ghost use Rattle.std.specs.Prelude.{◌≡◌, IfOk, false};
ghost use Rattle.program_dagstore.specs.Lines.{damaged_line};

use ipld_tree::Cid;
use program_parts::{Said, line_of};
use std::alloc::{AllocError, Global};
use text_cid::cid_text;

/// Returns the line for a name that the bytes stored under it do not match. The flag is false.
pub fn damaged_said(alloc: Global, name: &Cid) -> Result<Said, AllocError>
    ensures line { IfOk result (λ p. p.0.items ≡ damaged_line name.now) }
    ensures well { IfOk result (λ p. p.1 ≡ false) }
{
    let line = line_of(alloc, &cid_text(name), b" other bytes", b"")?;
    Ok((line, false))
}
