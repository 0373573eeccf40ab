//! The root before an event.

ghost use Rattle.std.specs.Prelude.{MatchResult};
ghost use Rattle.atproto_events.specs.Roots.{BeginsAt, NoBegin};

use crate::refusal::EventError;
use ipld_tree::Cid;

/// Returns the root from which the event leads: the root that the event states or the known one. If
/// there are both, they must be equal.
pub(crate) fn root_before(said: Option<Cid>, known: Option<Cid>) -> Result<Cid, EventError>
    ensures { MatchResult result (BeginsAt said known) (NoBegin said known) }
{
    match (said, known) {
        (Some(said), Some(known)) => {
            if said != known {
                return Err(EventError::OtherRoot);
            }
            Ok(said)
        }
        (Some(said), None) => Ok(said),
        (None, Some(known)) => Ok(known),
        (None, None) => Err(EventError::NoRoot),
    }
}
