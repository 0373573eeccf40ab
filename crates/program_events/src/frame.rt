//! The output for one frame.

ghost use Rattle.std.specs.Prelude.{◌≡◌, Option, None, Some, string_bytes, IfOk};
ghost use Rattle.atproto_events.specs.Verifying.{IsVerifiedEvent};
ghost use Rattle.atproto_events.specs.declared.verify.Known.{Known};
ghost use Rattle.program_events.specs.Lines.{commit_lines, sync_line};
ghost use Rattle.program_events.specs.Seen.{see, seen_in};
ghost use Rattle.program_events.specs.Frames.{IsSaidAlone, IsToldAt};
ghost use Rattle.program_events.specs.Frames.{IsCommitSaid, IsReadSaid, IsFrameSaid};

use crate::causes::{refused_line, unread_line};
use crate::lines::{account_line, commit_lines, two_words_line, word_line};
use crate::seen::{Last, forget, keep, known_of};
use atproto_events::{
    CommitFrame, Frame, FrameParts, SyncFrame, Verified, read_parts, verify_event,
};
use program_parts::Answer;
use program_records::told_alone;
use std::alloc::{AllocError, Global};
use std::collections::BTreeMap;

/// The number of a frame, and the offset of its first byte.
#[derive(Clone, Copy)]
pub struct Place {
    pub number: usize,
    pub byte: usize,
}

/// Returns these lines as output, without an error message.
fn said_alone(alloc: Global, lines: Vec<u8>) -> Answer
    ensures { IsSaidAlone lines.items result.0.1 result.0.0.items result.1.items }
{
    ((lines, true), Vec::new(alloc))
}

/// Returns this line as the error message for the frame at this place, without output.
pub(crate) fn told_at(alloc: Global, at: Place, line: &[u8]) -> Result<Answer, AllocError>
    ensures { IfOk result
        (λ p. IsToldAt at.number at.byte line.now p.0.1 p.0.0.items p.1.items) }
{
    let place = format!(in alloc; "frame {} at byte {}: ", at.number, at.byte)?;
    let mut told = Vec::new(alloc);
    told.extend_from_slice(place.as_bytes())?;
    told.extend_from_slice(line)?;
    Ok(told_alone(alloc, told))
}

/// Returns the output for a verified commit.
fn verified_said(
    alloc: Global,
    frame: &CommitFrame<'_>,
    verified: Verified,
    seen: &mut BTreeMap<String, Last>,
) -> Result<Answer, AllocError>
    ensures { (known : Option Known) → IsVerifiedEvent frame.now known verified
        → IfOk result (λ p. (seen_in seen.new
        ≡ see (seen_in seen.old) (string_bytes frame.now.event.repo)
        (Some (verified.commit.data, string_bytes frame.now.event.rev)))
        × IsSaidAlone (commit_lines frame.now.event) p.0.1 p.0.0.items p.1.items) }
{
    let lines = commit_lines(alloc, &frame.event, &verified.changes)?;
    keep(seen, verified.commit)?;
    Ok(said_alone(alloc, lines))
}

/// Returns the answer for a commit: its lines, or why it is not verified.
fn commit_said(
    alloc: Global,
    at: Place,
    frame: &CommitFrame<'_>,
    seen: &mut BTreeMap<String, Last>,
) -> Result<Answer, AllocError>
    ensures { IfOk result (λ p. IsCommitSaid at.number at.byte (seen_in seen.old) frame.now
        (seen_in seen.new) p.0.1 p.0.0.items p.1.items) }
{
    let known = known_of(seen, frame.event.repo.as_str());
    match verify_event(alloc, frame, &known) {
        Ok(verified) => verified_said(alloc, frame, verified, seen),
        Err(error) => {
            let line = refused_line(alloc, &frame.event.commit, &error)?;
            told_at(alloc, at, &line)
        }
    }
}

/// Returns the output for a sync, and forgets what was known of its repository.
fn sync_said(
    alloc: Global,
    frame: &SyncFrame<'_>,
    seen: &mut BTreeMap<String, Last>,
) -> Result<Answer, AllocError>
    ensures { IfOk result (λ p. (seen_in seen.new
        ≡ see (seen_in seen.old) (string_bytes frame.now.event.did) None)
        × IsSaidAlone (sync_line frame.now.event) p.0.1 p.0.0.items p.1.items) }
{
    let line = two_words_line(
        alloc,
        b"sync",
        frame.event.did.as_str(),
        frame.event.rev.as_str(),
    )?;
    forget(seen, frame.event.did.as_str());
    Ok(said_alone(alloc, line))
}

/// Returns the answer for a frame that is read.
fn read_said(
    alloc: Global,
    at: Place,
    frame: &Frame<'_>,
    seen: &mut BTreeMap<String, Last>,
) -> Result<Answer, AllocError>
    ensures { IfOk result (λ p. IsReadSaid at.number at.byte (seen_in seen.old) frame.now
        (seen_in seen.new) p.0.1 p.0.0.items p.1.items) }
{
    match frame {
        Frame::Commit(frame) => commit_said(alloc, at, frame, seen),
        Frame::Sync(frame) => sync_said(alloc, frame, seen),
        Frame::Identity(event) => {
            let line = word_line(alloc, b"identity", event.did.as_str())?;
            Ok(said_alone(alloc, line))
        }
        Frame::Account(event) => {
            let line = account_line(alloc, event)?;
            Ok(said_alone(alloc, line))
        }
        Frame::Info(event) => {
            let line = word_line(alloc, b"info", event.name.as_str())?;
            Ok(said_alone(alloc, line))
        }
        Frame::Error(event) => {
            let line = word_line(alloc, b"the host ends the stream:", event.error.as_str())?;
            told_at(alloc, at, &line)
        }
        Frame::Other(name) => {
            let line = word_line(alloc, b"a kind that is not known:", name.as_str())?;
            told_at(alloc, at, &line)
        }
    }
}

/// Returns the answer for the frame of these two items, or why they are not a frame.
pub(crate) fn frame_said(
    alloc: Global,
    at: Place,
    parts: &FrameParts<'_>,
    seen: &mut BTreeMap<String, Last>,
) -> Result<Answer, AllocError>
    ensures { IfOk result (λ p. IsFrameSaid at.number at.byte (seen_in seen.old)
        parts.now.header.now parts.now.body.now (seen_in seen.new)
        p.0.1 p.0.0.items p.1.items) }
{
    match read_parts(alloc, parts) {
        Ok(frame) => read_said(alloc, at, &frame, seen),
        Err(error) => {
            let line = unread_line(alloc, &error)?;
            told_at(alloc, at, &line)
        }
    }
}
