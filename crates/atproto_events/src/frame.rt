//! Frames of com.atproto.sync.subscribeRepos, in sequence.

ghost use Rattle.std.specs.Prelude.{◌≡◌, ◌++◌, IfErr, IfOk, MatchOption, MatchResult};
ghost use Rattle.dagcbor_items.specs.Skips.{EndByHeads};
ghost use Rattle.atproto_events.specs.Frames.{IsHeader, SplitsFrame, IsFrameOf, IsFrame, HasNoItem, HasNoEnd};
ghost use Rattle.atproto_events.specs.Frames.{HeaderRefused, PartsRefused, FrameRefused, BeginsNoFrameFor};

use crate::body::{Frame, read_body};
use crate::frame_error::FrameError;
use crate::kind::{Kind, kind_of};
use dagcbor_core::DecodeError;
use dagcbor_items::after_item;
use dagcbor_read::from_slice;
use std::alloc::Global;
use types_events::FrameHeader;

/// The two items of a frame, and the bytes after it.
#[derive(Clone, Copy, Debug, Drop)]
pub struct FrameParts<'a> {
    pub header: &'a [u8],
    pub body: &'a [u8],
    pub rest: &'a [u8],
}

/// Splits the first item off by its heads, or returns `None` if no item is first.
fn split_item(bytes: &[u8]) -> Option<(&[u8], &[u8])>
    ensures { MatchOption result (HasNoItem bytes.now)
        (λ p. EndByHeads bytes.now 1 p.1.now × (bytes.now ≡ p.0.now ++ p.1.now)) }
{
    let rest = after_item(bytes)?;
    Some((&bytes[..bytes.len() - rest.len()], rest))
}

/// Splits the first two items off by their heads, without validating them. Returns `None` if the
/// bytes do not begin with two items.
pub fn split_frame(bytes: &[u8]) -> Option<FrameParts<'_>>
    ensures { MatchOption result (HasNoEnd bytes.now)
        (λ p. SplitsFrame bytes.now p.header.now p.body.now p.rest.now) }
{
    let (header, following) = split_item(bytes)?;
    let (body, rest) = split_item(following)?;
    Some(FrameParts { header, body, rest })
}

/// Decodes the header, and returns the kind that it names.
fn read_kind(alloc: Global, header: &[u8]) -> Result<Kind, FrameError>
    ensures { MatchResult result (IsHeader header.now) (HeaderRefused header.now) }
{
    match from_slice::<FrameHeader>(alloc, header) {
        Ok(header) => kind_of(header),
        Err(error) => match error {
            DecodeError::OutOfMemory => Err(FrameError::OutOfMemory),
            _ => Err(FrameError::NoHeader(error)),
        },
    }
}

/// Decodes a frame from its two items. Its CAR file is borrowed.
pub fn read_parts<'a>(alloc: Global, parts: &FrameParts<'a>) -> Result<Frame<'a>, FrameError>
    ensures { MatchResult result (IsFrameOf parts.now.header.now parts.now.body.now)
        (PartsRefused parts.now.header.now parts.now.body.now) }
{
    let kind = read_kind(alloc, parts.header)?;
    read_body(alloc, kind, parts.body)
}

/// Decodes the first frame, and returns it with the bytes after it. The frame's CAR file is
/// borrowed.
pub fn read_frame(alloc: Global, bytes: &[u8]) -> Result<(Frame<'_>, &[u8]), FrameError>
    ensures read { IfOk result (λ p. IsFrame bytes.now p.0 p.1.now) }
    ensures refused { IfErr result (FrameRefused bytes.now) }
    ensures none { IfErr result (BeginsNoFrameFor bytes.now) }
{
    let Some(parts) = split_frame(bytes) else {
        return Err(FrameError::NoEnd);
    };
    let frame = read_parts(alloc, &parts)?;
    Ok((frame, parts.rest))
}
