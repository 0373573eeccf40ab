//! The kind of the frame at the front, and where it ends.

ghost use Rattle.abi_memory_calls.specs.Frames.{IsPartsAnswer, IsFrameAnswer};

use crate::code::{NO_END, frame_code, frame_kind};
use atproto_events::{FrameParts, read_parts, split_frame};
use std::alloc::Global;

/// Returns the number of the kind of the frame that the two items are, or of why they are not one.
fn parts_code(alloc: Global, parts: &FrameParts<'_>) -> i32
    ensures { IsPartsAnswer parts.now.header.now parts.now.body.now result }
{
    match read_parts(alloc, parts) {
        Ok(frame) => frame_kind(&frame),
        Err(error) => frame_code(&error),
    }
}

/// Returns the number of the kind of the frame at the front, at least 0, or of why there is none,
/// below 0. If there are two items, `body` becomes where the second begins, and `end` where it
/// ends, even if they are not a frame.
pub fn place_frame(alloc: Global, bytes: &[u8], body: &mut usize, end: &mut usize) -> i32
    ensures { IsFrameAnswer bytes.now body.new end.new result }
{
    *body = 0;
    *end = 0;
    let Some(parts) = split_frame(bytes) else {
        return NO_END;
    };
    *body = parts.header.len();
    *end = bytes.len() - parts.rest.len();
    parts_code(alloc, &parts)
}
