//! What earlier frames tell about repositories.

ghost use Rattle.std.specs.Prelude.{◌≡◌, None, Some, option_map, string_bytes, OnOk};
ghost use Rattle.program_events.specs.Seen.{see, seen_in, root_given};

use atproto_events::Known;
use atproto_mst::Commit;
use ipld_tree::Cid;
use std::alloc::AllocError;
use std::collections::BTreeMap;

/// The root and the revision of a repository's last verified commit.
#[derive(Debug, Drop)]
pub struct Last {
    pub root: Cid,
    pub rev: String,
}

/// Returns what is known of the repository.
pub(crate) fn known_of<'a>(seen: &'a BTreeMap<String, Last>, did: &str) -> Option<Known<'a>>
    ensures { option_map root_given result ≡ seen_in seen.now did.now }
{
    match seen.get(did) {
        Some(last) => Some(Known {
            root: last.root,
            rev: last.rev.as_str(),
        }),
        None => None,
    }
}

/// Remembers the root and the revision of a commit.
pub(crate) fn keep(seen: &mut BTreeMap<String, Last>, commit: Commit) -> Result<(), AllocError>
    ensures { OnOk result (seen_in seen.new ≡ see (seen_in seen.old) (string_bytes commit.did)
        (Some (commit.data, string_bytes commit.rev))) }
{
    let last = Last {
        root: commit.data,
        rev: commit.rev,
    };
    match seen.insert(commit.did, last) {
        Ok(_before) => Ok(()),
        Err(_) => Err(AllocError),
    }
}

/// Forgets what is known of the repository.
pub(crate) fn forget(seen: &mut BTreeMap<String, Last>, did: &str)
    ensures { seen_in seen.new ≡ see (seen_in seen.old) did.now None }
{
    let _before = seen.remove(did);
}
