//! Writes the data model of a node into memory that has room for it.

ghost use Rattle.std.specs.Prelude.{◌≡◌, ◌+◌, ◌≤◌, List, [], length, option_map};
ghost use Rattle.ipld_tree.specs.Spelling.{spelling};
ghost use Rattle.dag_pb.specs.Node.{NodeParts, IsNode, Field, BeginsWithFields};
ghost use Rattle.dag_pb.specs.Reads.{link_of, links_in};
ghost use Rattle.lent_memory.specs.Puts.{PutsAt, with_front};
ghost use Rattle.dag_pb_model.specs.Model.{node_model};
ghost use Rattle.dag_pb_model.specs.Forms.{name_form, size_form, data_form, written_link};
ghost use Rattle.dag_pb_model.specs.Forms.{links_form, IsMeasured};

use crate::measure::{Measure, link_entries};
use arrayvec::ArrayVec;
use dag_pb::{PbLink, next_link};
use lent_memory::{put_head, put_link, put_string};

/// Writes the data model of the node, whose measure this is, at the front of `out`.
pub(crate) fn fill(node: &[u8], measure: &Measure<'_>, out: &mut [u8])
    requires { (parts : NodeParts) × IsNode node.now parts × IsMeasured measure.now parts
        × (length (spelling (node_model parts)) ≤ length out.old) }
    ensures { (parts : NodeParts) → IsNode node.now parts
        → out.new ≡ with_front (spelling (node_model parts)) out.old }
{
    let inner = put_head(out, 0, 5, measure.entries());
    let key = put_data(out, inner, measure.data);
    let count = put_string(out, key, 3, b"Links");
    let links = put_head(out, count, 4, measure.links as u64);
    put_links(out, links, node);
}

/// Writes the entry of the data at `at`, if there are data. Returns the place after it.
fn put_data(out: &mut [u8], at: usize, inner: Option<&[u8]>) -> usize
    requires { at + length (data_form (option_map (λ s. s.now) inner)) ≤ length out.old }
    ensures { PutsAt (data_form (option_map (λ s. s.now) inner.entry)) at out.old out.new result }
{
    match inner {
        Some(inner) => {
            let following = put_string(out, at, 3, b"Data");
            put_string(out, following, 2, inner)
        }
        None => at,
    }
}

/// Writes the data models of the links among these fields. Returns the place after them.
fn put_links(out: &mut [u8], at: usize, fields: &[u8]) -> usize
    requires { (row : List Field) × BeginsWithFields fields.now row []
        × (at + length (links_form (links_in row)) ≤ length out.old) }
    ensures { (row : List Field) → BeginsWithFields fields.now row []
        → PutsAt (links_form (links_in row)) at out.old out.new result }
{
    let mut place = at;
    let mut rest = fields;
    while let Some((link, following)) = next_link(rest) {
        place = put_model_of(out, place, &link);
        rest = following;
    }
    place
}

/// Writes the data model of the link. Returns the place after it.
fn put_model_of(out: &mut [u8], at: usize, link: &PbLink<'_>) -> usize
    requires { at + length (written_link (link_of link.now)) ≤ length out.old }
    ensures { PutsAt (written_link (link_of link.now)) at out.old out.new result }
{
    let mut cid = ArrayVec::new();
    link.hash.write_bytes(&mut cid);
    let key = put_head(out, at, 5, link_entries(link));
    let hash = put_string(out, key, 3, b"Hash");
    let name = put_link(out, hash, &cid);
    let size = put_name(out, name, link.name);
    put_size(out, size, link.tsize)
}

/// Writes the entry of the name, if there is one. Returns the place after it.
fn put_name(out: &mut [u8], at: usize, name: Option<&[u8]>) -> usize
    requires { at + length (name_form (option_map (λ s. s.now) name)) ≤ length out.old }
    ensures { PutsAt (name_form (option_map (λ s. s.now) name.entry)) at out.old out.new result }
{
    match name {
        Some(name) => {
            let following = put_string(out, at, 3, b"Name");
            put_string(out, following, 3, name)
        }
        None => at,
    }
}

/// Writes the entry of the size, if there is one. Returns the place after it.
fn put_size(out: &mut [u8], at: usize, tsize: Option<u64>) -> usize
    requires { at + length (size_form tsize) ≤ length out.old }
    ensures { PutsAt (size_form tsize) at out.old out.new result }
{
    match tsize {
        Some(tsize) => {
            let following = put_string(out, at, 3, b"Tsize");
            put_head(out, following, 0, tsize)
        }
        None => at,
    }
}
