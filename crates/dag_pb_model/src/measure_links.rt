//! Reads and measures the links of a data model, and tests their order.

ghost use Rattle.std.specs.Prelude.{◌≡◌, ◌&&◌, not, MatchOption};
ghost use Rattle.std.specs.Ordering.{nat_cmp, is_lt};
ghost use Rattle.std.specs.Cmp.Lexicographic.{slice_cmp};
ghost use Rattle.dag_pb.specs.Reads.{link_of};
ghost use Rattle.dag_pb.specs.Spelling.{sort_name};
ghost use Rattle.dag_pb_model.specs.Reading.{AreMeasured, AreNoLinkModels};

use crate::read::next_model_link;
use dag_pb::{PbLink, link_length};

/// Returns the name by which the link is sorted.
fn sort_name<'a>(link: &PbLink<'a>) -> &'a [u8]
    ensures { result.now ≡ sort_name (link_of link.now) }
{
    link.name.unwrap_or(&[])
}

/// Returns whether links that were sorted stay so, if a link with this name comes after one with
/// the last name.
fn are_still_sorted(sorted: bool, name: &[u8], last: &[u8]) -> bool
    ensures { result ≡ (sorted && not (is_lt (slice_cmp nat_cmp name.now last.now))) }
{
    sorted && !name.cmp(last).is_lt()
}

/// Returns the length of the fields of `count` links in bytes, and whether the links are sorted.
/// `None` if the bytes are not this many links' data models.
pub(crate) fn measure_links(count: u64, links: &[u8]) -> Option<(usize, bool)>
    ensures { MatchOption result (AreNoLinkModels links.now count)
        (λ m. AreMeasured links.now count m.0 m.1) }
{
    let (mut rest, mut left) = (links, count);
    let (mut size, mut sorted) = (0, true);
    let mut last: &[u8] = &[];
    while left > 0 {
        let Some((link, following)) = next_model_link(rest) else {
            return None;
        };
        let name = sort_name(&link);
        size += link_length(&link);
        sorted = are_still_sorted(sorted, name, last);
        last = name;
        rest = following;
        left -= 1;
    }
    if !rest.is_empty() {
        return None;
    }
    Some((size, sorted))
}
