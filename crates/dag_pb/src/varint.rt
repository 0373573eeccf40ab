//! Varints, and bytes after a varint that counts them.

ghost use Rattle.std.specs.Prelude.{◌≡◌, ◌↔◌, ◌<◌, ◌++◌, length, IsTrue, MatchResult};
ghost use Rattle.dag_pb.specs.Varint.{BeginsWithVarint, BeginsNoVarint, BeginsNoCounted};
ghost use Rattle.dag_pb.specs.Causes.{StopsIn};

use crate::error::PbCause;
use crate::stop::Stop;

/// The most bytes of a varint before its last one.
const LAST_GROUP: usize = 9;

/// Returns the number at the front, and the bytes after it.
pub(crate) fn split_varint(bytes: &[u8]) -> Result<(u64, &[u8]), Stop>
    ensures { MatchResult result
        (λ p. BeginsWithVarint bytes.now p.0 p.1.now)
        (λ stop. BeginsNoVarint bytes.now × StopsIn bytes.now stop) }
{
    let mut number = 0;
    let mut unit = 1;
    for (place, &group) in bytes.iter().enumerate() {
        if is_too_large(group, place) {
            return Err(Stop::before(PbCause::InvalidVarint, bytes));
        }
        number += u64::from(group % 128) * unit;
        if group < 128 {
            return Ok((number, &bytes[place + 1..]));
        }
        unit *= 128;
    }
    Err(Stop::before(PbCause::Truncated, bytes))
}

/// Returns whether a varint below 2^64 cannot have this group at this place. Of the tenth group it
/// has the lowest bit only.
fn is_too_large(group: u8, place: usize) -> bool
    ensures { IsTrue result ↔ ((place ≡ 9) × (1 < group)) }
{
    place == LAST_GROUP && group > 1
}

/// Returns the bytes that the number at the front counts, and the bytes after those.
pub(crate) fn split_counted(bytes: &[u8]) -> Result<(&[u8], &[u8]), Stop>
    ensures { MatchResult result
        (λ p. BeginsWithVarint bytes.now (length p.0.now) (p.0.now ++ p.1.now))
        (λ stop. BeginsNoCounted bytes.now × StopsIn bytes.now stop) }
{
    let (count, rest) = split_varint(bytes)?;
    match rest.split_at_checked(count as usize) {
        Some(parts) => Ok(parts),
        None => Err(Stop::before(PbCause::Truncated, bytes)),
    }
}
