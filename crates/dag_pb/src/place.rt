//! Measures links and data, and writes them into memory that the caller lends.

ghost use Rattle.std.specs.Prelude.{◌≡◌, ◌++◌, ◌∷◌, ◌+◌, ◌<◌, ◌≤◌, ◌^◌, length, option_map, IfSome};
ghost use Rattle.ipld_tree.specs.Cid.{varint};
ghost use Rattle.lent_memory.specs.Puts.{PutsAt};
ghost use Rattle.dag_pb.specs.Reads.{link_of};
ghost use Rattle.dag_pb.specs.Spelling.{counted, bytes_field, name_field, tsize_field, data_field_bytes};
ghost use Rattle.dag_pb.specs.Spelling.{link_spelling, IsSpellableLink};

use crate::field::{DATA, LINK};
use crate::link::{HASH, NAME, PbLink, TSIZE};
use arrayvec::ArrayVec;
use lent_memory::put;

/// Returns the length of the link's field in bytes.
pub fn link_length(link: &PbLink<'_>) -> usize
    ensures length { result ≡ length (link_spelling (link_of link.now)) }
    ensures few { result < 2 ^ 63 + 2 ^ 8 }
    ensures spellable { IsSpellableLink (link_of link.now) }
{
    let mut hash = ArrayVec::new();
    link.hash.write_bytes(&mut hash);
    let message = message_length(&hash, link.name, link.tsize);
    1 + varint_of(message as u64).len() + message
}

/// Returns the length of the data's field in bytes: 0 without data.
pub fn data_length(data: Option<&[u8]>) -> usize
    ensures length { result ≡ length (data_field_bytes (option_map (λ b. b.now) «data».entry)) }
    ensures few { result < 2 ^ 63 + 2 ^ 8 }
    ensures fits { IfSome (option_map (λ b. b.now) «data».entry) (λ b. length b < 2 ^ 64) }
{
    match data {
        Some(inner) => field_length(inner),
        None => 0,
    }
}

/// Writes the field of the link at `at`. Returns the place after it.
pub fn put_link(out: &mut [u8], at: usize, link: &PbLink<'_>) -> usize
    requires { at + length (link_spelling (link_of link.now)) ≤ length out.old }
    ensures { PutsAt (link_spelling (link_of link.now)) at out.old out.new result }
{
    let mut hash = ArrayVec::new();
    link.hash.write_bytes(&mut hash);
    put_linked(out, at, &hash, link.name, link.tsize)
}

/// Writes the field of the link with this CID in binary form, this name and this size. Returns the
/// place after it.
fn put_linked(
    out: &mut [u8],
    at: usize,
    hash: &[u8],
    name: Option<&[u8]>,
    tsize: Option<u64>,
) -> usize
    requires small { length hash.now ≤ 86 }
    requires room { at + length (bytes_field 0x12 (bytes_field 0x0a hash.now
        ++ (name_field (option_map (λ b. b.now) name) ++ tsize_field tsize))) ≤ length out.old }
    ensures { PutsAt (bytes_field 0x12 (bytes_field 0x0a hash.now
        ++ (name_field (option_map (λ b. b.now) name.entry) ++ tsize_field tsize))) at
        out.old out.new result }
{
    let message = message_length(hash, name, tsize);
    let inside = put_tagged(out, at, LINK as u8, message as u64);
    let following = put_bytes(out, inside, HASH as u8, hash);
    put_ends(out, following, name, tsize)
}

/// Writes the field of the data at `at`, if there are data. Returns the place after it.
pub fn put_data(out: &mut [u8], at: usize, data: Option<&[u8]>) -> usize
    requires { at + length (data_field_bytes (option_map (λ b. b.now) «data»))
        ≤ length out.old }
    ensures { PutsAt (data_field_bytes (option_map (λ b. b.now) «data».entry)) at out.old out.new
        result }
{
    match data {
        Some(inner) => put_bytes(out, at, DATA as u8, inner),
        None => at,
    }
}

/// Writes the fields of the name and the size. Returns the place after them.
fn put_ends(out: &mut [u8], at: usize, name: Option<&[u8]>, tsize: Option<u64>) -> usize
    requires { at + length (name_field (option_map (λ b. b.now) name) ++ tsize_field tsize)
        ≤ length out.old }
    ensures { PutsAt (name_field (option_map (λ b. b.now) name.entry) ++ tsize_field tsize) at
        out.old out.new result }
{
    let following = put_name(out, at, name);
    put_tsize(out, following, tsize)
}

/// Writes the field of the name, if there is one. Returns the place after it.
fn put_name(out: &mut [u8], at: usize, name: Option<&[u8]>) -> usize
    requires { at + length (name_field (option_map (λ b. b.now) name)) ≤ length out.old }
    ensures { PutsAt (name_field (option_map (λ b. b.now) name.entry)) at out.old out.new result }
{
    match name {
        Some(name) => put_bytes(out, at, NAME as u8, name),
        None => at,
    }
}

/// Writes the field of the size, if there is one. Returns the place after it.
fn put_tsize(out: &mut [u8], at: usize, tsize: Option<u64>) -> usize
    requires { at + length (tsize_field tsize) ≤ length out.old }
    ensures { PutsAt (tsize_field tsize) at out.old out.new result }
{
    match tsize {
        Some(tsize) => put_tagged(out, at, TSIZE as u8, tsize),
        None => at,
    }
}

/// Writes a field of bytes. Returns the place after it.
fn put_bytes(out: &mut [u8], at: usize, tag: u8, inner: &[u8]) -> usize
    requires { at + length (bytes_field tag inner.now) ≤ length out.old }
    ensures { PutsAt (bytes_field tag inner.now) at out.old out.new result }
{
    let following = put_tagged(out, at, tag, inner.len() as u64);
    put(out, following, inner)
}

/// Writes a tag and a number. Returns the place after them.
fn put_tagged(out: &mut [u8], at: usize, tag: u8, number: u64) -> usize
    requires { at + length (tag ∷ varint number) ≤ length out.old }
    ensures { PutsAt (tag ∷ varint number) at out.old out.new result }
{
    let following = put(out, at, &[tag]);
    put(out, following, &varint_of(number))
}

/// Returns the length of a link's message in bytes.
fn message_length(hash: &[u8], name: Option<&[u8]>, tsize: Option<u64>) -> usize
    requires { length hash.now ≤ 86 }
    ensures length { result ≡ length (bytes_field 0x0a hash.now
        ++ (name_field (option_map (λ b. b.now) name.entry) ++ tsize_field tsize)) }
    ensures fits { result < 2 ^ 63 + 2 ^ 7 }
    ensures size { IfSome tsize (λ n. n < 2 ^ 64) }
{
    field_length(hash) + name_length(name) + tsize_length(tsize)
}

/// Returns the length of the name's field in bytes: 0 without a name.
fn name_length(name: Option<&[u8]>) -> usize
    ensures length { result ≡ length (name_field (option_map (λ b. b.now) name.entry)) }
    ensures fits { result < 2 ^ 63 + 11 }
{
    match name {
        Some(name) => field_length(name),
        None => 0,
    }
}

/// Returns the length of the size's field in bytes: 0 without a size.
fn tsize_length(tsize: Option<u64>) -> usize
    ensures length { result ≡ length (tsize_field tsize) }
    ensures fits { result ≤ 11 }
    ensures size { IfSome tsize (λ n. n < 2 ^ 64) }
{
    match tsize {
        Some(tsize) => 1 + varint_of(tsize).len(),
        None => 0,
    }
}

/// Returns the length of a field of these bytes.
fn field_length(inner: &[u8]) -> usize
    ensures length { result ≡ 1 + length (counted inner.now) }
    ensures fits { result ≤ 11 + length inner.now }
{
    1 + varint_of(inner.len() as u64).len() + inner.len()
}

/// Returns the varint of the number: groups of seven bits, the lowest first.
fn varint_of(number: u64) -> ArrayVec<u8, 10>
    ensures { result.items ≡ varint number }
{
    let mut groups = ArrayVec::new();
    let mut rest = number;
    while rest >= 128 {
        groups.push(128 + (rest % 128) as u8);
        rest /= 128;
    }
    groups.push(rest as u8);
    groups
}
