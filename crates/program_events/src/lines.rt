//! The output lines of frames.

ghost use Rattle.std.specs.Prelude.{◌≡◌, ◌++◌, option_map, string_bytes, IfOk, OnOk};
ghost use Rattle.std.specs.List.{flat_map};
ghost use Rattle.program_parts.specs.Lines.{line};
ghost use Rattle.atproto_mst.specs.Changes.{change_of, changes};
ghost use Rattle.program_events.specs.Lines.{text_word, word_line, two_words_line};
ghost use Rattle.program_events.specs.Lines.{operation_word, operation_line, commit_line};
ghost use Rattle.program_events.specs.Lines.{activity_word, status_word, account_line};

use atproto_events::{AccountEvent, Change, CommitEvent};
use program_records::{push_key, push_name};
use std::alloc::{AllocError, Global};

/// Appends a space and the text, as one more word of a line.
fn push_word(text: &str, out: &mut Vec<u8>) -> Result<(), AllocError>
    ensures { OnOk result (out.new.items ≡ out.old.items ++ text_word text.now) }
{
    out.extend_from_slice(b" ")?;
    push_key(text.as_bytes(), out)
}

/// Returns the line of a word and a text.
pub(crate) fn word_line(alloc: Global, word: &[u8], text: &str) -> Result<Vec<u8>, AllocError>
    ensures { IfOk result (λ v. v.items ≡ word_line word.now text.now) }
{
    let mut out = word.to_vec(alloc)?;
    push_word(text, &mut out)?;
    out.extend_from_slice(b"\n")?;
    Ok(out)
}

/// Returns the line of a word and two texts.
pub(crate) fn two_words_line(
    alloc: Global,
    word: &[u8],
    first: &str,
    second: &str,
) -> Result<Vec<u8>, AllocError>
    ensures { IfOk result (λ v. v.items ≡ two_words_line word.now first.now second.now) }
{
    let mut out = word.to_vec(alloc)?;
    push_word(first, &mut out)?;
    push_word(second, &mut out)?;
    out.extend_from_slice(b"\n")?;
    Ok(out)
}

/// Returns the word for what was done to the record.
fn operation_word(change: &Change) -> &'static [u8]
    ensures { result.now ≡ operation_word change.now.old change.now.new }
{
    if change.old.is_none() {
        b"created "
    } else if change.new.is_none() {
        b"deleted "
    } else {
        b"updated "
    }
}

/// Appends the line of an operation.
fn push_operation(change: &Change, out: &mut Vec<u8>) -> Result<(), AllocError>
    ensures { OnOk result (out.new.items ≡ out.old.items ++ operation_line (change_of change.now)) }
{
    out.extend_from_slice(operation_word(change))?;
    push_key(&change.key, out)?;
    push_name(&change.old, out)?;
    push_name(&change.new, out)?;
    out.extend_from_slice(b"\n")
}

/// Returns the line of a commit, and a line for each of its changes.
pub(crate) fn commit_lines(
    alloc: Global,
    event: &CommitEvent,
    done: &[Change],
) -> Result<Vec<u8>, AllocError>
    ensures { IfOk result (λ v. v.items
        ≡ commit_line event.now ++ flat_map operation_line (changes done.now)) }
{
    let mut lines = two_words_line(alloc, b"commit", event.repo.as_str(), event.rev.as_str())?;
    for change in done {
        push_operation(change, &mut lines)?;
    }
    Ok(lines)
}

/// Returns the word for whether an account is active.
fn activity_word(active: bool) -> &'static [u8]
    ensures { result.now ≡ activity_word active }
{
    if active { b" active" } else { b" inactive" }
}

/// Appends the status of an account, if there is one.
fn push_status(status: &Option<String>, out: &mut Vec<u8>) -> Result<(), AllocError>
    ensures { OnOk result (out.new.items
        ≡ out.old.items ++ status_word (option_map string_bytes status.now)) }
{
    match status {
        Some(status) => push_word(status.as_str(), out),
        None => Ok(()),
    }
}

/// Returns the line of an account.
pub(crate) fn account_line(alloc: Global, event: &AccountEvent) -> Result<Vec<u8>, AllocError>
    ensures { IfOk result (λ v. v.items ≡ account_line event.now) }
{
    let mut out = b"account".to_vec(alloc)?;
    push_word(event.did.as_str(), &mut out)?;
    out.extend_from_slice(activity_word(event.active))?;
    push_status(&event.status, &mut out)?;
    out.extend_from_slice(b"\n")?;
    Ok(out)
}
