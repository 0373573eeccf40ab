//! Measures the data model of a node.

ghost use Rattle.std.specs.Prelude.{◌≡◌, ◌↔◌, ◌+◌, ◌-◌, ◌^◌, ◌<◌, ◌≤◌, min, length, option_map};
ghost use Rattle.std.specs.Prelude.{MatchOption, MatchResult, IfSome, IsUtf8, IsTrue};
ghost use Rattle.ipld_tree.specs.Spelling.{spelling};
ghost use Rattle.dag_pb.specs.Node.{NodeParts, IsNode, HasNode};
ghost use Rattle.dag_pb.specs.Reads.{link_of, field_of};
ghost use Rattle.dag_pb_model.specs.Model.{link_model, node_model, HasTextNames};
ghost use Rattle.dag_pb_model.specs.Refusals.{HasNoModel};
ghost use Rattle.dag_pb_model.specs.Forms.{name_form, size_form, data_form, part_count};
ghost use Rattle.dag_pb_model.specs.Forms.{IsMeasured, Adds};

use crate::error::ModelError;
use arrayvec::ArrayVec;
use dag_pb::{PbField, PbLink, check_node, next_field};
use dagcbor_decode::is_text;
use lent_memory::{head_length, link_length, string_length};

/// The measure of a node, from a walk over its fields.
#[derive(Clone, Copy)]
pub(crate) struct Measure<'a> {
    /// The data, if the node has some.
    pub(crate) data: Option<&'a [u8]>,
    /// The number of links.
    pub(crate) links: usize,
    /// The length of all links' data models together, in bytes.
    pub(crate) length: u128,
}

/// Returns the measure of a node that has a data model.
pub(crate) fn measured(node: &[u8]) -> Result<Measure<'_>, ModelError>
    ensures { MatchResult result
        (λ m. (parts : NodeParts) × IsNode node.now parts × HasTextNames parts
        × IsMeasured m parts × (m.length ≤ 2 ^ 127))
        (λ e. HasNoModel node.now e) }
{
    if let Err(fault) = check_node(node) {
        return Err(ModelError::NoNode(fault));
    }
    match measure_fields(node) {
        Some(found) => Ok(found),
        None => Err(ModelError::NameNotText),
    }
}

/// Returns the measure of a node. `None` if the name of a link is not UTF-8.
fn measure_fields(node: &[u8]) -> Option<Measure<'_>>
    requires { HasNode node.now }
    ensures { MatchOption result
        ((parts : NodeParts) × IsNode node.now parts × ¬ HasTextNames parts)
        (λ m. (parts : NodeParts) × IsNode node.now parts × HasTextNames parts
        × IsMeasured m parts × (m.length ≤ 2 ^ 127)) }
{
    let mut found = Measure {
        data: None,
        links: 0,
        length: 0,
    };
    let mut rest = node;
    while let Some((field, following)) = next_field(rest) {
        found = found.with(&field)?;
        rest = following;
    }
    Some(found)
}

impl<'a> Measure<'a> {
    /// Adds this field to the measure. `None` if it is a link whose name is not UTF-8.
    fn with(self, field: &PbField<'a>) -> Option<Measure<'a>>
        requires links { self.links < 2 ^ 63 }
        requires length { self.length < 2 ^ 127 }
        ensures { Adds self.entry (field_of field.now) result }
    {
        match field {
            PbField::Link(link) => Some(Measure {
                data: self.data,
                links: self.links + 1,
                length: self.length + model_length(link)? as u128,
            }),
            PbField::Data(inner) => Some(Measure {
                data: Some(inner),
                links: self.links,
                length: self.length,
            }),
        }
    }

    /// Returns the length of the data model in bytes, at most 2^64 - 1.
    pub(crate) fn total(&self) -> usize
        requires { self.now.length ≤ 2 ^ 127 }
        ensures { (parts : NodeParts) → IsMeasured self.now parts
            → result ≡ min (length (spelling (node_model parts))) (2 ^ 64 - 1) }
    {
        let heads = head_length(self.entries())
            + string_length(b"Links")
            + head_length(self.links as u64);
        let whole = self.length + heads as u128 + data_length(self.data) as u128;
        whole.min(usize::MAX as u128) as usize
    }

    /// Returns the number of entries in the data model: 1 or 2.
    pub(crate) fn entries(&self) -> u64
        ensures { result ≡ 1 + part_count self.now.«data» }
    {
        if self.data.is_some() { 2 } else { 1 }
    }
}

/// Returns the length of a link's data model in bytes. `None` if its name is not UTF-8.
fn model_length(link: &PbLink<'_>) -> Option<usize>
    ensures { MatchOption result (¬ IfSome (link_of link.now).name IsUtf8)
        (λ n. IfSome (link_of link.now).name IsUtf8
        × (n ≡ length (spelling (link_model (link_of link.now)))) × (n < 2 ^ 64)) }
{
    if !is_text_name(link.name) {
        return None;
    }
    let mut cid = ArrayVec::new();
    link.hash.write_bytes(&mut cid);
    let hash = head_length(link_entries(link)) + string_length(b"Hash") + link_length(&cid);
    Some(hash + name_length(link.name) + size_length(link.tsize))
}

/// Returns whether the name is UTF-8, or left out.
fn is_text_name(name: Option<&[u8]>) -> bool
    ensures { IsTrue result ↔ IfSome (option_map (λ s. s.now) name.entry) IsUtf8 }
{
    match name {
        Some(name) => is_text(name),
        None => true,
    }
}

/// Returns the number of entries in a link's data model: 1 to 3.
pub(crate) fn link_entries(link: &PbLink<'_>) -> u64
    ensures few { result ≤ 3 }
    ensures count { result ≡ 1 + (part_count (link_of link.now).name
        + part_count (link_of link.now).tsize) }
{
    let name = if link.name.is_some() { 1 } else { 0 };
    let size = if link.tsize.is_some() { 1 } else { 0 };
    1 + name + size
}

/// Returns the length of the name's entry in bytes: 0 without a name.
fn name_length(name: Option<&[u8]>) -> usize
    ensures length { result ≡ length (name_form (option_map (λ s. s.now) name.entry)) }
    ensures fits { result < 2 ^ 63 + 30 }
{
    match name {
        Some(name) => string_length(b"Name") + string_length(name),
        None => 0,
    }
}

/// Returns the length of the size's entry in bytes: 0 without a size.
fn size_length(tsize: Option<u64>) -> usize
    ensures length { result ≡ length (size_form tsize) }
    ensures few { result ≤ 30 }
{
    match tsize {
        Some(tsize) => string_length(b"Tsize") + head_length(tsize),
        None => 0,
    }
}

/// Returns the length of the data's entry in bytes: 0 without data.
fn data_length(inner: Option<&[u8]>) -> usize
    ensures length { result ≡ length (data_form (option_map (λ s. s.now) inner.entry)) }
    ensures fits { result < 2 ^ 63 + 30 }
{
    match inner {
        Some(inner) => string_length(b"Data") + string_length(inner),
        None => 0,
    }
}
