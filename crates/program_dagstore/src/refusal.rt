//! What is reported of a refusal, and the exit status of a run that ends so.

ghost use Rattle.std.specs.Prelude.{◌≡◌, ◌++◌, codes, decimal, MatchOption};
ghost use Rattle.text_cid.specs.Texts.{cid_text};
ghost use Rattle.program_shared.specs.Writing.{WritesFront};
ghost use Rattle.dagcbor_core.specs.Appends.{AppendsFront};
ghost use Rattle.program_dagstore.specs.Refusals.{disk_text, unsound_text, row_text, refusal_text};
ghost use Rattle.program_dagstore.specs.Refusals.{refusal_status, state_lines, refusal_lines};
ghost use Rattle.program_dagstore.specs.Refusals.{tool_text, dagstore_line, status_of};
ghost use Rattle.program_dagstore.specs.Refusals.{TellsRunFault};

use crate::fault::Fault;
use dagcbor_decode::variant_name;
use ipld_tree::Cid;
use itoa::Buffer;
use program_parts::{pb_cause_name, verdict_words};
use program_shared::{ToolError, write_all};
use sqlite_trees::error::StoreError;
use std::io::Write;
use store_on_disk::{StoreRefusal, Unsound};
use text_cid::cid_text;

/// The words before the place of the byte at which a block is malformed.
const AT_BYTE: &str = " at byte ";

/// Returns the message for a failure of the database.
fn disk_text(error: &StoreError) -> &'static str
    ensures { result.now ≡ disk_text error.now }
{
    match error {
        StoreError::OutOfMemory => "out of memory",
        StoreError::Io => "disk I/O error",
        StoreError::Corrupt => "database disk image is malformed",
        StoreError::Full => "database or disk is full",
        StoreError::Broken => "the transaction must be rolled back",
        StoreError::Unstorable => "a row cannot be stored",
    }
}

/// The message for a refusal: a text, the name of a variant, and a number with the words before it.
type Told = (&'static str, &'static str, Option<(&'static str, u64)>);

/// Returns the message for a block that does not belong under its name.
fn unsound_words(cause: &Unsound) -> Told
    ensures { MatchOption result.2 (result.0.now ++ result.1.now ≡ unsound_text cause.now)
        (λ place. result.0.now ++ (result.1.now ++ (place.0.now ++ decimal place.1))
        ≡ unsound_text cause.now) }
{
    match cause {
        Unsound::OtherHash => (
            "the block is named by another hash function than SHA-256",
            "",
            None,
        ),
        Unsound::OtherBytes => ("the block has other bytes than its name says", "", None),
        Unsound::NoBlock(error, place) => {
            (
                "the block is no DAG-CBOR: ",
                variant_name(error),
                Some((AT_BYTE, *place as u64)),
            )
        }
        Unsound::NoNode(error) => {
            (
                "the block is no DAG-PB: ",
                pb_cause_name(&error.cause),
                Some((AT_BYTE, error.place as u64)),
            )
        }
    }
}

/// Returns the message for a row of the database that no store writes.
fn at_row(text: &'static str, row: &Option<u64>) -> Told
    ensures { MatchOption result.2 (result.0.now ++ result.1.now ≡ text.now ++ row_text row.now)
        (λ place. result.0.now ++ (result.1.now ++ (place.0.now ++ decimal place.1))
        ≡ text.now ++ row_text row.now) }
{
    match row {
        Some(number) => (text, "", Some((" at row ", *number))),
        None => (text, "", None),
    }
}

/// Returns the message for a refusal of the store.
fn refusal_words(refusal: &StoreRefusal) -> Told
    ensures { MatchOption result.2 (result.0.now ++ result.1.now ≡ refusal_text refusal.now)
        (λ place. result.0.now ++ (result.1.now ++ (place.0.now ++ decimal place.1))
        ≡ refusal_text refusal.now) }
{
    match refusal {
        StoreRefusal::Unsound(cause) => unsound_words(cause),
        StoreRefusal::Damaged(_) => {
            (
                "what is stored under the name has other bytes than it says",
                "",
                None,
            )
        }
        StoreRefusal::LinksUnread(_, _) => ("the links of a block cannot be read", "", None),
        StoreRefusal::NoBlock(_) => ("a root has no block", "", None),
        StoreRefusal::NoNumber => ("no number is left for a row", "", None),
        StoreRefusal::TooLong => ("the block is too long for a row", "", None),
        StoreRefusal::BadEntry(row) => at_row("the index of names has a wrong entry", row),
        StoreRefusal::BadRoot(row) => at_row("the table of roots has a wrong row", row),
        StoreRefusal::NotAStore => ("the file is no store of blocks", "", None),
        StoreRefusal::EarlierVersion => (
            "the file is of an earlier version, which keeps no roots: export it, and import that into a new file",
            "",
            None,
        ),
        StoreRefusal::Locked => ("another process has the file open", "", None),
        StoreRefusal::CannotOpen => (
            "the file cannot be opened for reading and writing",
            "",
            None,
        ),
        StoreRefusal::Disk(error) => (disk_text(error), "", None),
        StoreRefusal::OutOfMemory => ("out of memory", "", None),
    }
}

/// Returns status 1 if the data are the cause, else 2.
pub fn refusal_status(refusal: &StoreRefusal) -> u8
    ensures { result ≡ refusal_status refusal.now }
{
    match refusal {
        StoreRefusal::Unsound(_) => 1,
        StoreRefusal::Damaged(_) => 1,
        StoreRefusal::LinksUnread(_, _) => 1,
        StoreRefusal::NoBlock(_) => 1,
        StoreRefusal::NoNumber => 2,
        StoreRefusal::TooLong => 1,
        StoreRefusal::BadEntry(_) => 1,
        StoreRefusal::BadRoot(_) => 1,
        StoreRefusal::NotAStore => 1,
        StoreRefusal::EarlierVersion => 1,
        StoreRefusal::Locked => 2,
        StoreRefusal::CannotOpen => 2,
        StoreRefusal::Disk(_) => 2,
        StoreRefusal::OutOfMemory => 2,
    }
}

/// Returns the message for a device that failed, or for out of memory.
fn tool_text(error: &ToolError) -> &'static str
    ensures { result.now ≡ tool_text error.now }
{
    match error {
        ToolError::Input => "the input failed",
        ToolError::Output => "standard output takes no more",
        ToolError::OutOfMemory => "out of memory",
    }
}

/// Writes `first`, and then `second`.
pub fn write_both<W: Write>(writer: &mut W, first: &[u8], second: &[u8]) -> Result<(), ToolError>
    ensures { WritesFront (W.contents writer.old) (W.contents writer.new) result (first.now ++ second.now) }
{
    write_all(writer, first)?;
    write_all(writer, second)
}

/// Writes a line that begins with the program's name.
pub fn write_told<W: Write>(errors: &mut W, first: &str, second: &str) -> Result<(), ToolError>
    ensures { WritesFront (W.contents errors.old) (W.contents errors.new) result
        (dagstore_line (first.now ++ second.now)) }
{
    write_both(errors, b"dagstore: ", first.as_bytes())?;
    write_both(errors, second.as_bytes(), b"\n")
}

/// Writes a line that begins with the program's name, and ends with a number and the words before
/// it.
fn write_told_at<W: Write>(
    errors: &mut W,
    first: &str,
    second: &str,
    words: &str,
    number: u64,
) -> Result<(), ToolError>
    ensures { WritesFront (W.contents errors.old) (W.contents errors.new) result
        (dagstore_line (first.now ++ (second.now ++ (words.now ++ decimal number)))) }
{
    let mut digits = Buffer::new();
    write_both(errors, b"dagstore: ", first.as_bytes())?;
    write_both(errors, second.as_bytes(), words.as_bytes())?;
    write_both(errors, digits.format(number).as_bytes(), b"\n")
}

/// Writes the line of a refusal of the store.
pub fn write_refusal<W: Write>(refusal: &StoreRefusal, errors: &mut W) -> Result<(), ToolError>
    ensures { WritesFront (W.contents errors.old) (W.contents errors.new) result
        (dagstore_line (refusal_text refusal.now)) }
{
    let (text, which, place) = refusal_words(refusal);
    match place {
        Some((words, number)) => write_told_at(errors, text, which, words, number),
        None => write_told(errors, text, which),
    }
}

/// Writes the line of the name of a block, after the program's name.
pub fn write_name<V: Write>(errors: &mut V, name: &Cid) -> Result<(), ToolError>
    ensures { WritesFront (V.contents errors.old) (V.contents errors.new) result
        (dagstore_line (codes "of " ++ cid_text name.now)) }
{
    write_both(errors, b"dagstore: of ", &cid_text(name))?;
    write_all(errors, b"\n")
}

/// Writes the line of a name and of a state, given in two texts.
fn write_named<V: Write>(
    errors: &mut V,
    name: &Cid,
    first: &str,
    second: &str,
) -> Result<(), ToolError>
    ensures { WritesFront (V.contents errors.old) (V.contents errors.new) result
        (dagstore_line (cid_text name.now ++ (first.now ++ second.now))) }
{
    write_both(errors, b"dagstore: ", &cid_text(name))?;
    write_both(errors, first.as_bytes(), second.as_bytes())?;
    write_all(errors, b"\n")
}

/// Writes the name and the state of the block that a refusal is about, in the words of `check`.
fn write_state<V: Write>(refusal: &StoreRefusal, errors: &mut V) -> Result<(), ToolError>
    ensures { WritesFront (V.contents errors.old) (V.contents errors.new) result (state_lines refusal.now) }
{
    match refusal {
        StoreRefusal::Damaged(name) => write_named(errors, name, " other bytes", ""),
        StoreRefusal::LinksUnread(name, verdict) => {
            let (first, second) = verdict_words(verdict);
            write_named(errors, name, first, second)
        }
        StoreRefusal::NoBlock(name) => write_named(errors, name, " missing", ""),
        _ => Ok(()),
    }
}

/// Writes the lines of a refusal: its block, if it is about one, and why the store refused.
pub fn write_lines<V: Write>(refusal: &StoreRefusal, errors: &mut V) -> Result<(), ToolError>
    ensures { WritesFront (V.contents errors.old) (V.contents errors.new) result (refusal_lines refusal.now) }
{
    write_state(refusal, errors)?;
    write_refusal(refusal, errors)
}

/// Reports the refusal, and returns its status. If reporting fails, that is ignored.
pub fn tell_refusal<W: Write>(refusal: &StoreRefusal, errors: &mut W) -> u8
    ensures status { result ≡ refusal_status refusal.now }
    ensures told { AppendsFront (W.contents errors.old) (W.contents errors.new)
        (refusal_lines refusal.now) }
{
    let _ = write_lines(refusal, errors);
    refusal_status(refusal)
}

/// Reports the failure, and returns its status. If reporting fails, that is ignored.
pub fn tell_tool<W: Write>(error: &ToolError, errors: &mut W) -> u8
    ensures status { result ≡ 2 }
    ensures told { AppendsFront (W.contents errors.old) (W.contents errors.new)
        (dagstore_line (tool_text error.now)) }
{
    let _ = write_told(errors, tool_text(error), "");
    2
}

/// Returns the status of a run that ended so. A fault is reported on `errors`.
pub fn end<W: Write>(ended: Result<bool, Fault>, errors: &mut W) -> u8
    ensures status { result ≡ status_of ended }
    ensures told { TellsRunFault ended (W.contents errors.old) (W.contents errors.new) }
{
    match ended {
        Ok(true) => 0,
        Ok(false) => 1,
        Err(Fault::Store(refusal)) => tell_refusal(&refusal, errors),
        Err(Fault::Tool(error)) => tell_tool(&error, errors),
    }
}
