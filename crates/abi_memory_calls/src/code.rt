//! The numbers of the kinds of frames, of why there is no frame, and of why one is not verified.

ghost use Rattle.std.specs.Prelude.{◌≡◌};
ghost use Rattle.abi_memory_calls.specs.Codes.{frame_kind, frame_code, undo_code, event_code, node_of};

use atproto_events::{EventError, Frame, FrameError, UndoError};
use ipld_tree::Cid;

/// The number returned if memory runs out.
pub(crate) const NO_MEMORY: i32 = -42;

/// The number returned if the bytes are not two items.
pub(crate) const NO_END: i32 = -61;

/// The number returned for a frame that is not a commit.
pub(crate) const NO_COMMIT: i32 = -66;

/// The number returned if the known root is not a CID, or the known revision not UTF-8.
pub(crate) const NO_KNOWN: i32 = -67;

/// Returns the number of the kind of a frame.
pub(crate) fn frame_kind(frame: &Frame<'_>) -> i32
    ensures { result ≡ frame_kind frame.now }
{
    match frame {
        Frame::Commit(_) => 0,
        Frame::Sync(_) => 1,
        Frame::Identity(_) => 2,
        Frame::Account(_) => 3,
        Frame::Info(_) => 4,
        Frame::Error(_) => 5,
        Frame::Other(_) => 6,
    }
}

/// Returns the number of why no frame is read.
pub(crate) fn frame_code(error: &FrameError) -> i32
    ensures { result ≡ frame_code error.now }
{
    match error {
        FrameError::OutOfMemory => NO_MEMORY,
        FrameError::NoEnd => NO_END,
        FrameError::NoHeader(_) => -62,
        FrameError::OtherOperation(_) => -63,
        FrameError::NoKind => -64,
        FrameError::NoBody(_) => -65,
    }
}

/// Returns the number of why changes cannot be undone.
fn undo_code(error: &UndoError) -> i32
    ensures { result ≡ undo_code error.now }
{
    match error {
        UndoError::OutOfMemory => NO_MEMORY,
        UndoError::MissingNode(_) => -82,
        UndoError::OtherBytes(_) => -83,
        UndoError::NoNode(_) => -84,
        UndoError::OtherTree => -85,
        UndoError::KeyLength => -86,
        UndoError::OtherState => -87,
    }
}

/// Returns the number of why a commit is not verified.
pub(crate) fn event_code(error: &EventError) -> i32
    ensures { result ≡ event_code error.now }
{
    match error {
        EventError::OutOfMemory => NO_MEMORY,
        EventError::TooBig => -68,
        EventError::Rebase => -69,
        EventError::ManyOperations => -70,
        EventError::ManyBytes => -71,
        EventError::NotAfter => -72,
        EventError::OtherRoot => -73,
        EventError::NoRoot => -74,
        EventError::OtherForm => -75,
        EventError::NoCar(_) => -76,
        EventError::OtherCommit => -77,
        EventError::NoCommit(_) => -78,
        EventError::OtherRepository => -79,
        EventError::OtherRevision => -80,
        EventError::LeadsElsewhere => -81,
        EventError::NotUndone(why) => undo_code(why),
    }
}

/// Returns the node because of which the changes cannot be undone, if one is the cause.
pub(crate) fn node_of(error: &EventError) -> Option<Cid>
    ensures { result ≡ node_of error.now }
{
    match error {
        EventError::NotUndone(why) => match why {
            UndoError::MissingNode(node) => Some(*node),
            UndoError::OtherBytes(node) => Some(*node),
            UndoError::NoNode(node) => Some(*node),
            _ => None,
        },
        _ => None,
    }
}
