//! The header at the front of a CAR file, with the roots.

ghost use Rattle.std.specs.Prelude.{◌↔◌, [], ◌∷◌, map, codes, pos, Some, IsTrue, true};
ghost use Rattle.std.specs.Prelude.{◌≢◌, ℕ, List, MatchResult, MatchOption, IfOk, IfErr};
ghost use Rattle.ipld_tree.specs.Cid.{cid_bytes};
ghost use Rattle.ipld_tree.specs.Tree.{integer, list, link, items_of, list_tree, entries_tree};
ghost use Rattle.ipld_tree.specs.Spelling.{IsSpelling, IsFront};
ghost use Rattle.dagcbor_items.specs.Walks.{forms};
ghost use Rattle.dagcbor_write.specs.Trees.{field};
ghost use Rattle.files_car.specs.Car.{header_tree};
ghost use Rattle.files_car.specs.Splits.{SplitsHeader, HeaderRefused, ReadsHeader};
ghost use Rattle.files_car.specs.Splits.{IsNoHeader, AreLinkFronts};
ghost use Rattle.files_car.specs.declared.error.CarError.TheVariants.{OutOfMemory};

use crate::error::CarError;
use crate::section::split_counted;
use dagcbor_core::split_head;
use dagcbor_decode::{after_link, check_slice, links_from_slice};
use dagcbor_heads::{Write, WriteResult};
use dagcbor_write::{Field, Serialize, Serializer, to_vec, write_struct};
use ipld_tree::Cid;
use std::alloc::{AllocError, Global};
use std::convert::Infallible;

/// The version of the format.
const VERSION: u8 = 1;

/// The fields of a header, to be encoded.
#[derive(Clone, Copy)]
struct Header<'a> {
    roots: &'a [Cid],
}

impl Serialize for Header<'_> {
    ghost tree = { λ h. entries_tree
        (field (codes "roots") (list_tree (map (λ c. Some (link (cid_bytes c))) h.roots.now))
        ∷ field (codes "version") (Some (integer (pos 1))) ∷ []) };

    ghost takes_memory = { true };

    fn serialize<W: Write>(&self, alloc: Global, ser: &mut Serializer<W>) -> WriteResult<(), W> {
        let fields = (
            Field("roots", &self.roots),
            (Field("version", &VERSION), ()),
        );
        write_struct(alloc, fields, ser)
    }
}

/// Returns the encoded header of these roots, without its length.
#[tactic(auto, using(crate::proofs::Headers::is_written))]
pub(crate) fn spell_header(alloc: Global, roots: &[Cid]) -> Result<Vec<u8>, AllocError>
    ensures { IfOk result (λ v. IsSpelling v.items (header_tree (forms roots.now))) }
{
    // A list of CIDs can always be encoded, so this is refused only if memory runs out.
    to_vec(alloc, &Header { roots }).map_err(|_| AllocError)
}

/// Returns the roots of the header at the front, and the bytes after it.
pub fn split_header(alloc: Global, bytes: &[u8]) -> Result<(Vec<Cid>, &[u8]), CarError<Infallible>>
    ensures { MatchResult result
        (λ p. SplitsHeader bytes.now (forms p.0.items) p.1.now)
        (λ e. HeaderRefused e bytes.now) }
{
    let (inner, rest) = split_counted(bytes)?;
    let roots = read_header(alloc, inner)?;
    Ok((roots, rest))
}

/// Returns the block of the header at the front, and the bytes after it. It allocates nothing: the
/// roots are the links of that block.
pub fn judge_header(bytes: &[u8]) -> Result<(&[u8], &[u8]), CarError<Infallible>>
    ensures header { MatchResult result
        (λ p. (roots : List (List ℕ)) × IsSpelling p.0.now (header_tree roots)
        × SplitsHeader bytes.now roots p.1.now)
        (λ e. HeaderRefused e bytes.now) }
    ensures memory { IfErr result (λ e. e ≢ OutOfMemory) }
{
    let (inner, rest) = split_counted(bytes)?;
    judge_block(inner)?;
    Ok((inner, rest))
}

/// Validates the bytes as a header.
fn judge_block<E: Drop>(bytes: &[u8]) -> Result<(), CarError<E>>
    ensures header { MatchResult result
        (λ _. (roots : List (List ℕ)) × IsSpelling bytes.now (header_tree roots))
        (λ e. IsNoHeader e bytes.now) }
    ensures memory { IfErr result (λ e. e ≢ OutOfMemory) }
{
    if is_header(bytes) {
        return Ok(());
    }
    match check_slice(bytes) {
        Ok(_kind) => Err(CarError::OtherHeader),
        Err(error) => Err(CarError::NoBlock(error)),
    }
}

/// Returns whether the bytes are the header of some roots.
fn is_header(bytes: &[u8]) -> bool
    ensures { IsTrue result ↔ ((roots : List (List ℕ)) × IsSpelling bytes.now (header_tree roots)) }
{
    let Some((front, list)) = bytes.split_at_checked(7) else {
        return false;
    };
    if front != b"\xa2\x65roots".as_slice() {
        return false;
    }
    let Some(version) = after_link_list(list) else {
        return false;
    };
    version == b"\x67version\x01".as_slice()
}

/// Returns the bytes after the list of links at the front.
fn after_link_list(bytes: &[u8]) -> Option<&[u8]>
    ensures { MatchOption result
        (¬ ((roots : List (List ℕ)) × (rest : List ℕ)
        × IsFront bytes.now (list (items_of (map link roots))) rest))
        (λ rest. (roots : List (List ℕ))
        × IsFront bytes.now (list (items_of (map link roots))) rest.now) }
{
    let (major, count, following) = split_head(bytes)?;
    if major != 4 {
        return None;
    }
    after_links(following, count)
}

/// Returns the bytes after `count` links.
#[tactic(auto, using(crate::proofs::HeaderShape::no_link_passed))]
fn after_links(bytes: &[u8], count: u64) -> Option<&[u8]>
    ensures { MatchOption result
        (¬ ((roots : List (List ℕ)) × (rest : List ℕ) × AreLinkFronts bytes.now count roots rest))
        (λ rest. (roots : List (List ℕ)) × AreLinkFronts bytes.now count roots rest.now) }
{
    let mut rest = bytes;
    let mut more = count;
    while more > 0 {
        rest = after_link(rest)?;
        more -= 1;
    }
    Some(rest)
}

/// Reads the bytes as a whole header, and returns its roots.
pub(crate) fn read_header<E: Drop>(alloc: Global, bytes: &[u8]) -> Result<Vec<Cid>, CarError<E>>
    ensures { ReadsHeader bytes.now result }
{
    judge_block(bytes)?;
    // The bytes are a block, so this is refused only if memory runs out.
    match links_from_slice(alloc, bytes) {
        Ok(roots) => Ok(roots),
        Err(_) => Err(CarError::OutOfMemory),
    }
}
