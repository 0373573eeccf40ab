//! Lines that say why a frame is not read, or its commit not verified.

ghost use Rattle.std.specs.Prelude.{◌≡◌, IfOk};
ghost use Rattle.program_events.specs.Causes.{IsOfFrame, IsOfEvent, unread_line, undo_line};
ghost use Rattle.program_events.specs.Causes.{refused_words, refused_line};

use atproto_events::{EventError, FrameError, UndoError};
use ipld_tree::Cid;
use program_parts::{fault_name, line_of, missing_line};
use program_records::{cause_text, name_fault_line, repo_line};
use std::alloc::{AllocError, Global};

/// Returns the line that says why a frame is not read. Out of memory has no line.
pub(crate) fn unread_line(alloc: Global, error: &FrameError) -> Result<Vec<u8>, AllocError>
    ensures { IfOk result (λ v. IsOfFrame error.now × (v.items ≡ unread_line error.now)) }
{
    match error {
        FrameError::OutOfMemory => Err(AllocError),
        FrameError::NoEnd => line_of(alloc, b"the bytes are not two items", b"", b""),
        FrameError::NoHeader(cause) => {
            let cause = cause_text(cause);
            line_of(alloc, b"the header is not read: ", cause.as_bytes(), b"")
        }
        FrameError::OtherOperation(_) => {
            let words = b"the operation of the header is neither 1 nor -1";
            line_of(alloc, words, b"", b"")
        }
        FrameError::NoKind => line_of(alloc, b"the header tells no kind", b"", b""),
        FrameError::NoBody(cause) => {
            let cause = cause_text(cause);
            line_of(alloc, b"the body is not read: ", cause.as_bytes(), b"")
        }
    }
}

/// Returns the line that says why operations are not undone. Out of memory has no line.
fn undo_line(alloc: Global, error: &UndoError) -> Result<Vec<u8>, AllocError>
    ensures { IfOk result (λ v. v.items ≡ undo_line error.now) }
{
    match error {
        UndoError::OutOfMemory => Err(AllocError),
        UndoError::MissingNode(name) => missing_line(alloc, name),
        UndoError::OtherBytes(name) => name_fault_line(alloc, name, b" other bytes"),
        UndoError::NoNode(name) => name_fault_line(alloc, name, b" is no node"),
        UndoError::OtherTree => line_of(alloc, b"the nodes are not those of a tree", b"", b""),
        UndoError::KeyLength => line_of(alloc, b"a key has no byte, or more than 1024", b"", b""),
        UndoError::OtherState => {
            let words = b"the tree has not what an operation leads to";
            line_of(alloc, words, b"", b"")
        }
    }
}

/// Returns the words for a cause that has no cause of its own.
fn refused_words(error: &EventError) -> &'static [u8]
    ensures { result.now ≡ refused_words error.now }
{
    match error {
        EventError::TooBig => b"the event does not tell all: tooBig",
        EventError::Rebase => b"the event tells of a rebase",
        EventError::ManyOperations => b"the event has more than 200 operations",
        EventError::ManyBytes => b"the event has more than 2,000,000 bytes of blocks",
        EventError::NotAfter => b"the revision does not come after the one that is known",
        EventError::OtherRoot => b"prevData is another root than the one that is known",
        EventError::NoRoot => b"the event has no prevData, and no root is known",
        EventError::OtherForm => b"an operation lacks a record of its action, or has one more",
        EventError::OtherCommit => b"the first root of the blocks is not the commit",
        EventError::OtherRepository => b"the commit is of another repository",
        EventError::OtherRevision => b"the commit is of another revision",
        EventError::LeadsElsewhere => b"the operations lead from another root",
        _ => b"",
    }
}

/// Returns the line that says why this commit is not verified. Out of memory has no line.
pub(crate) fn refused_line(
    alloc: Global,
    commit: &Cid,
    error: &EventError,
) -> Result<Vec<u8>, AllocError>
    ensures { IfOk result (λ v. IsOfEvent error.now × (v.items ≡ refused_line commit.now error.now)) }
{
    match error {
        EventError::OutOfMemory => Err(AllocError),
        EventError::NoCar(cause) => {
            let words = b"the blocks are no CAR file of version 1: ";
            line_of(alloc, words, fault_name(cause).as_bytes(), b"")
        }
        EventError::NoCommit(cause) => repo_line(alloc, commit, cause),
        EventError::NotUndone(cause) => undo_line(alloc, cause),
        _ => line_of(alloc, refused_words(error), b"", b""),
    }
}
