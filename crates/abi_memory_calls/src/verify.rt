//! What is verified of the commit in a frame, written into the caller's memory.

ghost use Rattle.abi_memory_calls.specs.Events.{IsRefusalPut, IsJudged, IsFrameJudged, IsEventAnswer};

use crate::code::{NO_COMMIT, NO_KNOWN, NO_MEMORY, event_code, frame_code, node_of};
use crate::event_told::verified_block;
use crate::known::known_of;
use abi_calls::put_front;
use arrayvec::ArrayVec;
use atproto_events::{CommitFrame, EventError, Frame, Known, read_frame, verify_event};
use std::alloc::Global;

/// Puts the name of the node because of which the commit is not verified, if one is the cause.
/// Returns the number of why.
fn put_refusal(error: &EventError, out: &mut [u8], needed: &mut usize) -> i32
    ensures { IsRefusalPut error.now out.old out.new needed.new result }
{
    let mut form = ArrayVec::new();
    if let Some(node) = node_of(error) {
        node.write_bytes(&mut form);
    }
    put_front(event_code(error), &form, out, needed)
}

/// Puts the block that describes what is verified of the commit. Returns 0, or the number of why it
/// is not verified.
fn put_judged(
    alloc: Global,
    frame: &CommitFrame<'_>,
    known: &Option<Known<'_>>,
    out: &mut [u8],
    needed: &mut usize,
) -> i32
    ensures { IsJudged frame.now known.now out.old out.new needed.new result }
{
    match verify_event(alloc, frame, known) {
        Ok(verified) => match verified_block(alloc, &frame.event.commit, &verified) {
            Ok(block) => put_front(0, &block, out, needed),
            Err(_) => {
                *needed = 0;
                NO_MEMORY
            }
        },
        Err(error) => put_refusal(&error, out, needed),
    }
}

/// Puts what is verified of the frame, if it is a commit.
fn put_frame(
    alloc: Global,
    frame: &Frame<'_>,
    known: &Option<Known<'_>>,
    out: &mut [u8],
    needed: &mut usize,
) -> i32
    ensures { IsFrameJudged frame.now known.now out.old out.new needed.new result }
{
    *needed = 0;
    match frame {
        Frame::Commit(commit) => put_judged(alloc, commit, known, out, needed),
        _ => NO_COMMIT,
    }
}

/// Puts the block that describes what is verified of the commit in the frame at the front, against
/// the known root and revision if `root` is not empty; or the name of the node because of which it
/// is not verified, if one is the cause. Bytes after the frame are ignored.
pub fn put_event(
    alloc: Global,
    bytes: &[u8],
    root: &[u8],
    rev: &[u8],
    out: &mut [u8],
    needed: &mut usize,
) -> i32
    ensures { IsEventAnswer bytes.now root.now rev.now out.old out.new needed.new result }
{
    *needed = 0;
    let Some(known) = known_of(root, rev) else {
        return NO_KNOWN;
    };
    match read_frame(alloc, bytes) {
        Ok((frame, _rest)) => put_frame(alloc, &frame, &known, out, needed),
        Err(error) => frame_code(&error),
    }
}
