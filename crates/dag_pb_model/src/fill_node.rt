//! Writes a node into memory that has room for it.

ghost use Rattle.std.specs.Prelude.{option_map};
ghost use Rattle.dag_pb_model.specs.Reading.{HasRoomForLinks, FillsLinks, HasRoomForNode, FillsNode};

use crate::read::next_model_link;
use dag_pb::{put_data, put_link};

/// Writes the links with these data models at the front of `out`. Returns the place after them.
fn fill_links(links: &[u8], out: &mut [u8]) -> usize
    requires { HasRoomForLinks links.now out.old }
    ensures { FillsLinks links.now out.old out.new result }
{
    let (mut rest, mut at) = (links, 0);
    while !rest.is_empty() {
        let Some((link, following)) = next_model_link(rest) else {
            unreachable!()
        };
        at = put_link(out, at, &link);
        rest = following;
    }
    at
}

/// Writes the node with this data, and the links with these data models, at the front of `out`.
pub(crate) fn fill_node(data: Option<&[u8]>, links: &[u8], out: &mut [u8])
    requires { HasRoomForNode (option_map (λ b. b.now) «data») links.now out.old }
    ensures { FillsNode (option_map (λ b. b.now) «data».entry) links.now out.old out.new }
{
    let at = fill_links(links, out);
    put_data(out, at, data);
}
