//! `import`: a CAR file is stored, all of it or nothing.

ghost use Rattle.std.specs.Prelude.{◌≡◌, ◌++◌, codes, IfOk, false, []};
ghost use Rattle.text_cid.specs.Texts.{cid_text};
ghost use Rattle.program_shared.specs.Writing.{WritesFront};
ghost use Rattle.dagcbor_heads.specs.Inputs.{not_lending};
ghost use Rattle.dagcbor_core.specs.Steps.{default_steps};
ghost use Rattle.dagcbor_heads.specs.Reading.{fresh_reading};
ghost use Rattle.dagcbor_core.specs.Appends.{AppendsFront};
ghost use Rattle.dagcbor_items.specs.Walks.{forms};
ghost use Rattle.store_on_disk.specs.Stored.{IsKeptBy};
ghost use Rattle.program_dagstore.specs.Files.{file_text, file_status, after_line, unread_lines};
ghost use Rattle.program_dagstore.specs.Files.{unread_status, stored_lines, SaysStored, Imports};
ghost use Rattle.program_dagstore.specs.Refusals.{dagstore_line, refusal_text};
ghost use Rattle.std.specs.declared.io.Error.{Error};

use crate::fault::Fault;
use crate::refusal::{
    end, refusal_status, tell_refusal, tell_tool, write_name, write_refusal, write_told,
};
use dagcbor_heads::{Input, IoReader};
use files_car::CarError;
use ipld_tree::Cid;
use program_parts::{fault_name, line_of, root_lines, say};
use program_shared::{ToolError, write_all};
use std::alloc::{AllocError, Global};
use std::io::{BufRead, Write};
use store_on_disk::{BlockStore, ReadCarError, Store, StoreRefusal};

/// Returns the message for input that is not a CAR file, or was not read, and the name of a
/// variant.
#[tactic(auto, using(crate::proofs::Importing::no_file))]
fn file_words<E>(error: &CarError<E>) -> (&'static str, &'static str)
    ensures { result.0.now ++ result.1.now ≡ file_text error.now }
{
    match error {
        CarError::Read(_) => ("the input failed", ""),
        _ => ("the input is not a CAR file: ", fault_name(error)),
    }
}

/// Returns status 1 if the bytes are the cause, else 2.
#[tactic(auto, using(crate::proofs::Importing::no_file_status))]
fn file_status<E>(error: &CarError<E>) -> u8
    ensures { result ≡ file_status error.now }
{
    match error {
        CarError::Read(_) => 2,
        _ => 1,
    }
}

/// Reports that the input is not a CAR file, or was not read, and returns the status.
fn tell_file<E, V: Write>(error: &CarError<E>, errors: &mut V) -> u8
    ensures status { result ≡ file_status error.now }
    ensures told { AppendsFront (V.contents errors.old) (V.contents errors.new)
        (dagstore_line (file_text error.now)) }
{
    let (text, which) = file_words(error);
    let _ = write_told(errors, text, which);
    file_status(error)
}

/// Writes the name of a block, and why it is not stored.
fn write_block<V: Write>(
    errors: &mut V,
    name: &Cid,
    refusal: &StoreRefusal,
) -> Result<(), ToolError>
    ensures { WritesFront (V.contents errors.old) (V.contents errors.new) result
        (dagstore_line (codes "of " ++ cid_text name.now) ++ dagstore_line (refusal_text refusal.now)) }
{
    write_name(errors, name)?;
    write_refusal(refusal, errors)
}

/// Returns the line of how many sections come before the place where a file stopped.
fn after_line(alloc: Global, count: u64) -> Result<Vec<u8>, AllocError>
    ensures { IfOk result (λ v. v.items ≡ after_line count) }
{
    let count = format!(in alloc; "{count}")?;
    line_of(alloc, b"dagstore: after ", count.as_bytes(), b" sections")
}

/// Writes how many sections come before the place where a file stopped.
fn write_place<V: Write>(alloc: Global, errors: &mut V, count: u64) -> Result<(), ToolError>
    ensures { WritesFront (V.contents errors.old) (V.contents errors.new) result (after_line count) }
{
    let line = after_line(alloc, count)?;
    write_all(errors, &line)
}

/// Writes where a file stopped, and why no section is there, or was not read.
fn write_stopped<E, V: Write>(
    alloc: Global,
    errors: &mut V,
    count: u64,
    error: &CarError<E>,
) -> Result<(), ToolError>
    ensures { WritesFront (V.contents errors.old) (V.contents errors.new) result
        (after_line count ++ dagstore_line (file_text error.now)) }
{
    write_place(alloc, errors, count)?;
    let (text, which) = file_words(error);
    write_told(errors, text, which)
}

/// Writes where a file stopped, the name of the block there, and why it is not stored.
fn write_unkept<V: Write>(
    alloc: Global,
    errors: &mut V,
    count: u64,
    name: &Cid,
    refusal: &StoreRefusal,
) -> Result<(), ToolError>
    ensures { WritesFront (V.contents errors.old) (V.contents errors.new) result
        (after_line count ++ (dagstore_line (codes "of " ++ cid_text name.now)
        ++ dagstore_line (refusal_text refusal.now))) }
{
    write_place(alloc, errors, count)?;
    write_block(errors, name, refusal)
}

/// Reports why a file is not stored, and returns the status. If reporting fails, that is ignored.
pub fn tell_unread<E, V: Write>(alloc: Global, error: &ReadCarError<E>, errors: &mut V) -> u8
    ensures status { result ≡ unread_status error.now }
    ensures told { AppendsFront (V.contents errors.old) (V.contents errors.new) (unread_lines error.now) }
{
    match error {
        ReadCarError::Header(error) => tell_file(error, errors),
        ReadCarError::Section(count, error) => {
            let _ = write_stopped(alloc, errors, *count, error);
            file_status(error)
        }
        ReadCarError::Block(count, name, refusal) => {
            let _ = write_unkept(alloc, errors, *count, name, refusal);
            refusal_status(refusal)
        }
        ReadCarError::Store(refusal) => tell_refusal(refusal, errors),
        ReadCarError::OutOfMemory => tell_tool(&ToolError::OutOfMemory, errors),
    }
}

/// Returns the lines of the roots, and of how many sections are stored.
fn stored_lines(alloc: Global, roots: &[Cid], count: u64) -> Result<Vec<u8>, AllocError>
    ensures { IfOk result (λ v. v.items ≡ stored_lines (forms roots.now) count) }
{
    let mut lines = root_lines(alloc, roots)?;
    let count = format!(in alloc; "{count}")?;
    let line = line_of(alloc, b"stored ", count.as_bytes(), b"")?;
    lines.extend_from_slice(&line)?;
    Ok(lines)
}

/// Writes the roots of a file, and how many of its sections are stored.
fn say_stored<W: Write>(
    alloc: Global,
    roots: &[Cid],
    count: u64,
    output: &mut W,
) -> Result<bool, Fault>
    ensures { SaysStored (forms roots.now) count (W.contents output.old) result (W.contents output.new) }
{
    let lines = stored_lines(alloc, roots, count)?;
    let well = say((lines, true), output)?;
    Ok(well)
}

/// Stores the blocks and the roots of the CAR file that the source has, all or none. Writes its
/// roots and how many sections it has, or reports why it is not stored. Returns the status.
pub fn import_blocks<S: Store, R: BufRead + Drop, W: Write, V: Write>(
    alloc: Global,
    store: &mut BlockStore<S>,
    source: R,
    output: &mut W,
    errors: &mut V,
) -> u8
    ensures imports { Imports Error S.Store
        (not_lending (fresh_reading (R.remaining source) default_steps false [])) store.old
        (W.contents output.old) (V.contents errors.old) result store.new (W.contents output.new)
        (V.contents errors.new) }
    ensures kept { IsKeptBy S.Store store.old store.new }
{
    let mut input = Input::Reader(IoReader::new(source));
    match store.read_car(&mut input) {
        Ok(read) => end(say_stored(alloc, &read.0, read.1, output), errors),
        Err(error) => tell_unread(alloc, &error, errors),
    }
}
