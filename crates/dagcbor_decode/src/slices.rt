//! Decides whether a slice is a block, and of which kind, or why not, and where.

ghost use Rattle.std.specs.Prelude.{◌≡◌, Err, IfOk};
ghost use Rattle.ipld_tree.specs.Tree.{Tree};
ghost use Rattle.dagcbor_decode.specs.Blocks.{IsBlock};
ghost use Rattle.dagcbor_decode.specs.Decode.{decode, refused};
ghost use Rattle.dagcbor_decode.specs.TreeKinds.{kind_of};
ghost use Rattle.dagcbor_decode.specs.Verdicts.{answer, answered, judged, verdict};
ghost use Rattle.dagcbor_decode.specs.Told.{why, kind_or, kind_told};

use crate::cause::{Cause, Stop};
use crate::judge::judge_item;
use crate::kind::{Kind, kind_of_front};
use dagcbor_core::{DEFAULT_STEPS, DecodeError};
use std::convert::Infallible;

/// Why bytes are not a block, and where. The bytes before `place`, taken alone, are refused only
/// for missing bytes; the next byte brings the cause.
#[derive(Debug, Drop)]
pub struct Refused {
    pub cause: DecodeError<Infallible>,
    pub place: usize,
}

/// Returns the kind of the data whose spelling is these bytes. Builds no tree, and takes no memory.
///
/// ```rust
/// agree(check_slice(b"\x82\x39\x01\x2b\x61a")?, Kind::List)?;
/// is_told(alloc, &check_slice(b"\x01\x02"), "Err(TrailingData)")?;
/// ```
pub fn check_slice(bytes: &[u8]) -> Result<Kind, DecodeError<Infallible>>
    ensures decoded { answered result ≡ answer (decode bytes.now) }
    ensures kind { IfOk result (λ kind. (t : Tree) × IsBlock bytes.now t × (kind ≡ kind_of t)) }
{
    let mut stop = Stop::new();
    match judge_block(bytes, &mut stop) {
        Some(kind) => Ok(kind),
        None => Err(stop.cause.refusal()),
    }
}

/// Returns the kind of a block, as `check_slice`, or why the bytes are not a block, and where.
///
/// ```rust
/// let Err(refused) = judge_slice(b"\x82\x01\x18\x17") else {
///     return Err(Fail::new("a block"));
/// };
/// agree(refused.place, 3)
/// ```
#[inline]
pub fn judge_slice(bytes: &[u8]) -> Result<Kind, Refused>
    ensures decoded { judged result ≡ verdict bytes.now (decode bytes.now) }
    ensures kind { IfOk result (λ kind. (t : Tree) × IsBlock bytes.now t × (kind ≡ kind_of t)) }
{
    let mut stop = Stop::new();
    match judge_block(bytes, &mut stop) {
        Some(kind) => Ok(kind),
        None => Err(refused_at(bytes, stop)),
    }
}

/// Returns the kind of a block. It is a separate function, because its callers have room for a
/// refusal, which is cleared at each call.
#[inline(never)]
fn judge_block(bytes: &[u8], stop: &mut Stop) -> Option<Kind>
    ensures { kind_or result stop.new ≡ kind_told (decode bytes.now) }
{
    let rest = judge_item(DEFAULT_STEPS, bytes, stop)?;
    let Some((_first, more)) = rest.split_first() else {
        return Some(kind_of_front(bytes));
    };
    *stop = Stop {
        cause: Cause::TrailingData,
        left: more.len(),
    };
    None
}

/// Returns the refusal of bytes at which the judge stopped, with its place.
fn refused_at(bytes: &[u8], stop: Stop) -> Refused
    ensures { judged (Err result) ≡ verdict bytes.now (refused (why stop.cause) stop.left) }
{
    let seen = bytes.len().saturating_sub(stop.left);
    let place = match stop.cause {
        Cause::Eof(_, _) => bytes.len(),
        _ => seen.saturating_sub(1),
    };
    Refused {
        cause: stop.cause.refusal(),
        place,
    }
}
