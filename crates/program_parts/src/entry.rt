//! One entry of a directory.

ghost use Rattle.std.specs.Prelude.{◌≡◌, ◌∷◌, ◌++◌, ◌<◌, option_map, IfOk, MatchResult};
ghost use Rattle.std.specs.List.{flat_map};
ghost use Rattle.ipld_links.specs.Reaching.{Stored, AreBytesOf, stored_in};
ghost use Rattle.dag_pb.specs.Reads.{link_of};
ghost use Rattle.program_parts.specs.Entries.{IsEntityAt, IsNoEntityAt, AreWordsOf, KnowsWords, IsKnown, KeepsWords, IsEntry};
ghost use Rattle.program_parts.specs.Entries.{entity_words, stop_words, entry_line, is_shown, shown_byte, hex_digit};

use crate::line::{Said, line_of};
use crate::stop::Stop;
use crate::verdict::is_well;
use dag_pb::PbLink;
use files_unix_fs::{Entity, read_entity};
use ipld_links::{stored_bytes, verify};
use ipld_paths::bytes_under;
use ipld_tree::Cid;
use std::alloc::{AllocError, Global};
use std::collections::BTreeMap;
use text_cid::cid_text;

/// Returns the entity that the block with this CID and these bytes is.
fn entity_named<'b>(cid: &Cid, bytes: &'b [u8]) -> Result<Entity<'b>, Stop>
    ensures { (stored : Stored) → AreBytesOf stored cid.now bytes.now → MatchResult result
        (IsEntityAt stored cid.now bytes.now) (IsNoEntityAt stored cid.now) }
{
    let verdict = verify(cid, bytes);
    if is_well(&verdict) {
        match read_entity(cid, bytes) {
            Ok(entity) => Ok(entity),
            Err(error) => Err(Stop::NoPart(error)),
        }
    } else {
        Err(Stop::NoBlock(verdict))
    }
}

/// Returns the bytes stored under the CID, and the entity that they are; or why they are not one.
pub(crate) fn entity_stored<'b>(
    cid: &'b Cid,
    stored: Option<&'b [u8]>,
) -> Result<(&'b [u8], Entity<'b>), Stop>
    ensures { (all : Stored) → all cid.now ≡ option_map (λ b. b.now) stored.entry
        → MatchResult result (λ p. IsEntityAt all cid.now p.0.now p.1) (IsNoEntityAt all cid.now) }
{
    match bytes_under(cid, stored) {
        Some(bytes) => match entity_named(cid, bytes) {
            Ok(entity) => Ok((bytes, entity)),
            Err(stop) => Err(stop),
        },
        None => Err(Stop::Missing),
    }
}

/// Returns the kind and the size of an entity.
pub(crate) fn entity_words(alloc: Global, entity: &Entity<'_>) -> Result<Vec<u8>, AllocError>
    ensures { IfOk result (λ v. v.items ≡ entity_words entity.now) }
{
    match entity {
        Entity::File(Some(size)) => Ok(format!(in alloc; "file {size} ")?.into_bytes()),
        Entity::File(None) => b"file - ".to_vec(alloc),
        Entity::Directory => b"directory - ".to_vec(alloc),
        Entity::Shard => b"shard - ".to_vec(alloc),
        Entity::Symlink(target) => {
            Ok(format!(in alloc; "symlink {} ", target.len())?.into_bytes())
        }
        Entity::Metadata => b"metadata - ".to_vec(alloc),
    }
}

/// Returns the words for a block that is not an entity.
fn stop_words(stop: &Stop) -> &'static [u8]
    ensures { result.now ≡ stop_words stop.now }
{
    match stop {
        Stop::Missing => b"missing - ",
        Stop::NoBlock(_) => b"refused - ",
        Stop::NoPart(_) => b"refused - ",
    }
}

/// Returns whether a byte of a name is written as it is.
fn is_shown(byte: u8) -> bool
    ensures { result ≡ is_shown byte }
{
    byte >= 0x20 && byte != 0x7f && byte != b'\\'
}

/// Returns the hexadecimal digit of the number.
fn hex_digit(number: u8) -> u8
    requires { number < 16 }
    ensures { result ≡ hex_digit number }
{
    if number < 10 {
        b'0' + number
    } else {
        b'a' + (number - 10)
    }
}

/// Appends a byte of a name: as it is, or as `\x` and two digits.
fn push_shown(out: &mut Vec<u8>, byte: u8) -> Result<(), AllocError>
    ensures { IfOk result (λ _. out.new.items ≡ out.old.items ++ shown_byte byte) }
{
    if is_shown(byte) {
        out.push(byte)?;
        return Ok(());
    }
    out.extend_from_slice(&[b'\\', b'x', hex_digit(byte / 16), hex_digit(byte % 16)])
}

/// Returns a space and the name as it is written, without line breaks.
fn shown_name(alloc: Global, name: &[u8]) -> Result<Vec<u8>, AllocError>
    ensures { IfOk result (λ v. v.items ≡ 32 ∷ flat_map shown_byte name.now) }
{
    let mut out = Vec::new(alloc);
    out.push(b' ')?;
    for byte in name {
        push_shown(&mut out, *byte)?;
    }
    Ok(out)
}

/// Returns the line of an entry, given the words for its block.
pub fn entry_line(alloc: Global, words: &[u8], link: &PbLink<'_>) -> Result<Vec<u8>, AllocError>
    ensures { IfOk result (λ v. v.items ≡ entry_line words.now (link_of link.now)) }
{
    let name = match link.name {
        Some(name) => shown_name(alloc, name)?,
        None => shown_name(alloc, b"")?,
    };
    line_of(alloc, words, &cid_text(&link.hash), &name)
}

/// Returns the words for the block under the CID, given the bytes stored under it, and whether its
/// kind is known.
pub fn words_stored(alloc: Global, cid: &Cid, stored: Option<&[u8]>) -> Result<Said, AllocError>
    ensures { (all : Stored) → all cid.now ≡ option_map (λ b. b.now) stored.entry
        → IfOk result (λ p. AreWordsOf all cid.now p.1 p.0.items) }
{
    match entity_stored(cid, stored) {
        Ok((_block, entity)) => Ok((entity_words(alloc, &entity)?, true)),
        Err(stop) => Ok((stop_words(&stop).to_vec(alloc)?, false)),
    }
}

/// Returns a copy of the words known for the block under the CID, if any.
pub fn known_words(
    alloc: Global,
    cid: &Cid,
    known: &BTreeMap<Cid, Said>,
) -> Result<Option<Said>, AllocError>
    ensures { IfOk result (IsKnown known.now cid.now) }
{
    match known.get(cid) {
        Some((words, has_kind)) => Ok(Some((words.as_slice().to_vec(alloc)?, *has_kind))),
        None => Ok(None),
    }
}

/// Keeps a copy of the words for the block under the CID, so that each block is verified once.
pub fn keep_words(
    alloc: Global,
    cid: &Cid,
    words: &[u8],
    has_kind: bool,
    known: &mut BTreeMap<Cid, Said>,
) -> Result<(), AllocError>
    ensures { IfOk result (λ _. KeepsWords cid.now has_kind words.now known.old known.new) }
{
    let copy = words.to_vec(alloc)?;
    match known.insert(*cid, (copy, has_kind)) {
        Ok(_none) => Ok(()),
        Err(_) => Err(AllocError),
    }
}

/// Returns the words for the block under the CID, and whether its kind is known. Keeps them.
fn words_known(
    alloc: Global,
    cid: &Cid,
    blocks: &BTreeMap<Cid, Vec<u8>>,
    known: &mut BTreeMap<Cid, Said>,
) -> Result<Said, AllocError>
    ensures { KnowsWords (stored_in blocks.now) known.old → IfOk result
        (λ p. KnowsWords (stored_in blocks.now) known.new
        × AreWordsOf (stored_in blocks.now) cid.now p.1 p.0.items) }
{
    if let Some(said) = known_words(alloc, cid, known)? {
        return Ok(said);
    }
    let (words, has_kind) = words_stored(alloc, cid, stored_bytes(blocks, cid))?;
    keep_words(alloc, cid, &words, has_kind, known)?;
    Ok((words, has_kind))
}

/// Returns the line of an entry, and whether its kind is known.
pub(crate) fn entry_said(
    alloc: Global,
    link: &PbLink<'_>,
    blocks: &BTreeMap<Cid, Vec<u8>>,
    known: &mut BTreeMap<Cid, Said>,
) -> Result<Said, AllocError>
    ensures { KnowsWords (stored_in blocks.now) known.old → IfOk result
        (λ p. KnowsWords (stored_in blocks.now) known.new
        × IsEntry (stored_in blocks.now) (link_of link.now) p.1 p.0.items) }
{
    let (words, has_kind) = words_known(alloc, &link.hash, blocks, known)?;
    let line = entry_line(alloc, &words, link)?;
    Ok((line, has_kind))
}
