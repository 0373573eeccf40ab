//! What a caller knows of a repository.

ghost use Rattle.std.specs.Prelude.{MatchOption};
ghost use Rattle.abi_memory_calls.specs.Knowing.{IsKnown, SaysNoKnown};

use atproto_events::Known;
use ipld_tree::Cid;
use std::str::from_utf8;

/// Returns what is known, if anything is: nothing if `root` is empty. Returns `None` if `root` is
/// not a CID, or `rev` not UTF-8.
pub(crate) fn known_of<'a>(root: &[u8], rev: &'a [u8]) -> Option<Option<Known<'a>>>
    ensures { MatchOption result (SaysNoKnown root.now rev.now) (IsKnown root.now rev.now) }
{
    if root.is_empty() {
        return Some(None);
    }
    let Ok(root) = Cid::try_from(root) else {
        return None;
    };
    match from_utf8(rev) {
        Ok(rev) => Some(Some(Known { root, rev })),
        Err(_) => None,
    }
}
