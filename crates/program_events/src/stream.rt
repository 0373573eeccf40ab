//! The output for a stream of frames.

ghost use Rattle.std.specs.Prelude.{IfOk};
ghost use Rattle.atproto_events.specs.declared.frame_error.FrameError.TheVariants.{NoEnd};
ghost use Rattle.program_events.specs.Causes.{unread_line};
ghost use Rattle.program_events.specs.Frames.{IsToldAt};
ghost use Rattle.program_events.specs.Streams.{AreEventsSaid};

use crate::causes::unread_line;
use crate::frame::{Place, frame_said, told_at};
use crate::seen::Last;
use atproto_events::{FrameError, split_frame};
use program_parts::Answer;
use program_records::append_answer;
use std::alloc::{AllocError, Global};
use std::collections::BTreeMap;

/// Returns the answer for bytes that do not begin with a frame.
fn end_said(alloc: Global, at: Place) -> Result<Answer, AllocError>
    ensures { IfOk result (λ p. IsToldAt at.number at.byte (unread_line NoEnd)
        p.0.1 p.0.0.items p.1.items) }
{
    let line = unread_line(alloc, &FrameError::NoEnd)?;
    told_at(alloc, at, &line)
}

/// Returns the answer for all frames of the bytes, in order. A commit is verified from its own
/// frame, and against the last commit of its repository. After a refused frame the next one is
/// read, if its beginning is known.
pub fn events_said(alloc: Global, bytes: &[u8]) -> Result<Answer, AllocError>
    ensures { IfOk result (λ p. AreEventsSaid bytes.now p.0.1 p.0.0.items p.1.items) }
{
    let mut seen = BTreeMap::new(alloc);
    let mut all = ((Vec::new(alloc), true), Vec::new(alloc));
    let mut at = Place { number: 0, byte: 0 };
    let mut rest = bytes;
    while !rest.is_empty() {
        at.number += 1;
        let Some(parts) = split_frame(rest) else {
            let end = end_said(alloc, at)?;
            append_answer(&mut all, &end)?;
            return Ok(all);
        };
        let next = frame_said(alloc, at, &parts, &mut seen)?;
        append_answer(&mut all, &next)?;
        at.byte += parts.header.len() + parts.body.len();
        rest = parts.rest;
    }
    Ok(all)
}
