//! Requests about files, which the caller opened.

ghost use Rattle.std.specs.Prelude.{◌≡◌, [], false, Bool, Result, Option, Some, List, ℕ, IfOk, IfErr};
ghost use Rattle.std.specs.Io.KnownBytes.{Keeps};
ghost use Rattle.program_shared.specs.declared.fault.ToolError.TheVariants.{OutOfMemory};
ghost use Rattle.dagcbor_heads.specs.Inputs.{not_lending};
ghost use Rattle.dagcbor_core.specs.Steps.{default_steps};
ghost use Rattle.dagcbor_heads.specs.Reading.{fresh_reading};
ghost use Rattle.store_on_disk.specs.Ends.{Quiet};
ghost use Rattle.store_on_disk.specs.Stored.{IsKeptBy};
ghost use Rattle.program_parts.specs.Lines.{SaysText};
ghost use Rattle.program_dagstore.specs.Files.{Imports};
ghost use Rattle.program_dagstore.specs.Roots.{ExportsMeant};
ghost use Rattle.program_dagstore.specs.declared.fault.Fault.{Fault};
ghost use Rattle.std.specs.declared.io.Error.{Error};
ghost use Rattle.program_serve.specs.Replies.{import_text, export_text, is_whole, refused, bad_text};
ghost use Rattle.dagcbor_core.specs.Appends.{AppendsFront};

use crate::answer::{framed, refused_text};
use program_dagstore::{Fault, export_meant, import_blocks};
use program_shared::{ToolError, write_all};
use std::alloc::{AllocError, Global};
use std::io::{BufRead, Write};
use store_on_disk::{BlockStore, Store};

/// Returns the reply to an import of this status.
fn import_text(alloc: Global, status: u8, said: &[u8], told: &[u8]) -> Result<Vec<u8>, AllocError>
    ensures { IfOk result (λ v. v.items ≡ import_text status said.now told.now) }
{
    if status == 0 {
        framed(alloc, b"ok", said)
    } else {
        framed(alloc, b"refused", told)
    }
}

/// Stores the blocks and the roots of the CAR file that the source has, all or none. The reply has
/// the output or the messages of `dagstore import`.
pub fn answer_import<S: Store, R: BufRead + Drop, W: Write>(
    alloc: Global,
    store: &mut BlockStore<S>,
    source: R,
    output: &mut W,
) -> Result<(), ToolError>
    ensures imports { (status : ℕ) × (said told : List ℕ)
        × Imports Error S.Store (not_lending (fresh_reading (R.remaining source) default_steps false []))
        store.old (Some []) (Some []) status store.new (Some said) (Some told)
        × SaysText (import_text status said told) (W.contents output.old) result (W.contents output.new) }
    ensures kept { IsKeptBy S.Store store.old store.new }
{
    let mut said = Vec::new(alloc);
    let mut told = Vec::new(alloc);
    let status = import_blocks(alloc, store, source, &mut said, &mut told);
    let text = import_text(alloc, status, &said, &told)?;
    write_all(output, &text)
}

/// Returns the reply to an export that ended so. `is_out` says whether the file took all that was
/// written.
fn export_text(
    alloc: Global,
    ended: &Result<bool, Fault>,
    is_out: bool,
) -> Result<Vec<u8>, ToolError>
    ensures ok { IfOk result (λ v. v.items ≡ export_text ended.now is_out) }
    ensures memory { IfErr result (λ e. e ≡ OutOfMemory) }
{
    match ended {
        Ok(_) if is_out => Ok(framed(alloc, b"ok", b"")?),
        Err(Fault::Store(refusal)) => refused_text(alloc, refusal),
        Err(Fault::Tool(ToolError::OutOfMemory)) => {
            Ok(framed(alloc, b"refused", b"dagstore: out of memory\n")?)
        }
        _ => Ok(framed(alloc, b"refused", FILE_FULL)?),
    }
}

/// The message for a file that takes no more.
const FILE_FULL: &[u8] = b"dagstore: the file takes no more\n";

/// Writes the reply to an export that ended so. `is_out` says whether the file took all that was
/// written. Returns whether the file is complete.
fn write_exported<W: Write>(
    alloc: Global,
    ended: &Result<bool, Fault>,
    is_out: bool,
    output: &mut W,
) -> Result<bool, ToolError>
    ensures says { SaysText (export_text ended.now is_out) (W.contents output.old) result (W.contents output.new) }
    ensures whole { IfOk result (λ whole. whole ≡ is_whole ended.now is_out) }
{
    let text = export_text(alloc, ended, is_out)?;
    write_all(output, &text)?;
    Ok(ended.is_ok() && is_out)
}

/// Writes the CAR file of the stored roots and of all blocks, and then a reply. Returns whether the
/// file is complete.
pub fn answer_export<S: Store, F: Write, W: Write>(
    alloc: Global,
    store: &mut BlockStore<S>,
    file: &mut F,
    output: &mut W,
) -> Result<bool, ToolError>
    ensures exports { (ended : Result Bool Fault) × (is_out : Bool) × (written : Option (List ℕ))
        × ExportsMeant S.Store [] store.old (F.contents file.old) ended store.new written
        × Keeps written (F.contents file.new)
        × SaysText (export_text ended is_out) (W.contents output.old) result (W.contents output.new)
        × IfOk result (λ whole. whole ≡ is_whole ended is_out) }
    ensures quiet { Quiet S.Store store.old store.new }
{
    let ended = export_meant(store, Vec::new(alloc), file);
    let is_out = file.flush().is_ok();
    write_exported(alloc, &ended, is_out, output)
}

/// Writes the reply that the file is not opened.
pub fn refuse_file<W: Write>(alloc: Global, told: &[u8], output: &mut W) -> Result<(), ToolError>
    ensures { SaysText (refused told.now) (W.contents output.old) result (W.contents output.new) }
{
    let text = framed(alloc, b"refused", told)?;
    write_all(output, &text)
}

/// Writes the reply to a line that is not a request, and returns the status. If that fails, it is
/// ignored.
pub fn answer_bad<W: Write>(output: &mut W) -> u8
    ensures status { result ≡ 2 }
    ensures told { AppendsFront (W.contents output.old) (W.contents output.new) bad_text }
{
    let _ = write_all(output, b"bad 12\nbad request\n");
    2
}
