//! The kinds of frames.

ghost use Rattle.std.specs.Prelude.{pos, Some, string_bytes, option_map, MatchResult};
ghost use Rattle.atproto_events.specs.Kinds.{IsKind, NoKindFor};

use crate::frame_error::FrameError;
use types_events::FrameHeader;

/// The kind of frame that a header names.
#[derive(Debug, Drop)]
pub enum Kind {
    Commit,
    Sync,
    Identity,
    Account,
    Info,
    /// An error, with which the host ends the stream.
    Error,
    /// A kind with another name.
    Other(String),
}

/// Returns the kind of this name.
fn kind_named(name: String) -> Kind
    ensures { IsKind (pos 1) (Some (string_bytes name)) result }
{
    match name.as_str() {
        "#commit" => Kind::Commit,
        "#sync" => Kind::Sync,
        "#identity" => Kind::Identity,
        "#account" => Kind::Account,
        "#info" => Kind::Info,
        _ => Kind::Other(name),
    }
}

/// Returns the kind that the header names.
pub(crate) fn kind_of(header: FrameHeader) -> Result<Kind, FrameError>
    ensures { MatchResult result (IsKind header.op (option_map string_bytes header.t))
        (NoKindFor header.op (option_map string_bytes header.t)) }
{
    match header.op {
        1 => match header.t {
            Some(name) => Ok(kind_named(name)),
            None => Err(FrameError::NoKind),
        },
        -1 => Ok(Kind::Error),
        op => Err(FrameError::OtherOperation(op)),
    }
}
