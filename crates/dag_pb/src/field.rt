//! The fields of a node.

ghost use Rattle.std.specs.Prelude.{MatchResult};
ghost use Rattle.dag_pb.specs.Node.{BeginsWithField, BeginsNoField};
ghost use Rattle.dag_pb.specs.Causes.{StopsIn};
ghost use Rattle.dag_pb.specs.Reads.{field_of};

use crate::error::PbCause;
use crate::link::{PbLink, read_link};
use crate::stop::Stop;
use crate::varint::{split_counted, split_varint};

/// The tag of a link: field 2, of bytes.
pub(crate) const LINK: u64 = 0x12;

/// The tag of the data: field 1, of bytes.
pub(crate) const DATA: u64 = 0x0a;

/// A field of a node.
#[derive(Clone, Copy, Debug)]
pub enum PbField<'a> {
    Link(PbLink<'a>),
    Data(&'a [u8]),
}

/// Returns the field at the front, and the bytes after it.
pub(crate) fn split_field(bytes: &[u8]) -> Result<(PbField<'_>, &[u8]), Stop>
    ensures { MatchResult result
        (λ p. BeginsWithField bytes.now (field_of p.0) p.1.now)
        (λ stop. BeginsNoField bytes.now × StopsIn bytes.now stop) }
{
    let (tag, following) = split_varint(bytes)?;
    if tag == DATA {
        let (inner, rest) = split_counted(following)?;
        return Ok((PbField::Data(inner), rest));
    }
    if tag != LINK {
        return Err(Stop::before(PbCause::UnexpectedField(tag), bytes));
    }
    let (message, rest) = split_counted(following)?;
    match read_link(message) {
        Ok(link) => Ok((PbField::Link(link), rest)),
        Err(stop) => Err(Stop {
            cause: stop.cause,
            left: stop.left + rest.len(),
        }),
    }
}
