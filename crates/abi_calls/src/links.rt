//! The links of an item, packed: for each, a byte with its CID's length, and the CID.

ghost use Rattle.std.specs.Prelude.{◌≡◌, [], List, ℕ};
ghost use Rattle.ipld_tree.specs.Cid.{cid_bytes};
ghost use Rattle.dagcbor_decode.specs.Rows.{HoldsLinks};
ghost use Rattle.dag_pb.specs.Node.{Field, BeginsWithFields};
ghost use Rattle.abi_calls.specs.Packed.{PacksFields};
ghost use Rattle.abi_calls.specs.Packed.{PacksBytes, PacksCid, Packs};
ghost use Rattle.lent_memory.specs.Puts.{put_at};
ghost use Rattle.abi_calls.specs.Answers.{links_answer};

use crate::code::{kind_code, refusal_code};
use arrayvec::ArrayVec;
use dagcbor_decode::{first_item, kind_of_front, next_link};
use ipld_tree::Cid;

/// Memory of the caller for packed links, and how many bytes they need. Bytes that do not fit are
/// only counted.
#[derive(Drop)]
struct PackedLinks<'a> {
    out: &'a mut [u8],
    needed: usize,
}

impl<'a> PackedLinks<'a> {
    fn new(out: &'a mut [u8]) -> PackedLinks<'a>
        ensures reference { result.out.ghost_name ≡ out.entry.ghost_name }
        ensures bytes { result.out.now ≡ out.old }
        ensures needed { result.needed ≡ 0 }
    {
        PackedLinks { out, needed: 0 }
    }

    /// Appends the bytes, and counts them.
    fn put(&mut self, bytes: &[u8])
        ensures { PacksBytes bytes.now self.old self.new }
    {
        put_at(self.out, self.needed, bytes);
        self.needed = self.needed.saturating_add(bytes.len());
    }

    /// Appends a byte with the CID's length, and the CID.
    fn put_cid(&mut self, cid: Cid)
        ensures { PacksCid (cid_bytes cid) self.old self.new }
    {
        let mut form = ArrayVec::new();
        cid.write_bytes(&mut form);
        self.put(&[form.len() as u8]);
        self.put(&form);
    }
}

/// Writes the bytes at the place, if they fit there.
fn put_at(out: &mut [u8], at: usize, bytes: &[u8])
    ensures { out.new ≡ put_at at bytes.now out.old }
{
    if at <= out.len() && bytes.len() <= out.len() - at {
        out[at..at + bytes.len()].copy_from_slice(bytes);
    }
}

/// Writes the links of consecutive items at the front of `out`, packed, if they all fit. Returns
/// how many bytes they need.
fn pack(items: &[u8], out: &mut [u8]) -> usize
    requires { (links : List (List ℕ)) × HoldsLinks items.now links }
    ensures { Packs items.now out.old out.new result }
{
    let mut packed = PackedLinks::new(out);
    let mut rest = items;
    while let Some(found) = next_link(rest) {
        packed.put_cid(found.0);
        rest = found.1;
    }
    // No effect at run time. The proof reads what `out` holds from this use.
    let _ = packed.out.len();
    packed.needed
}

/// Writes the links of consecutive fields of a node at the front of `out`, packed, if they all fit.
/// Returns how many bytes they need.
pub(crate) fn pack_fields(fields: &[u8], out: &mut [u8]) -> usize
    requires { (row : List Field) × BeginsWithFields fields.now row [] }
    ensures { PacksFields fields.now out.old out.new result }
{
    let mut packed = PackedLinks::new(out);
    let mut rest = fields;
    while let Some((link, following)) = dag_pb::next_link(rest) {
        packed.put_cid(link.hash);
        rest = following;
    }
    // No effect at run time. The proof reads what `out` holds from this use.
    let _ = packed.out.len();
    packed.needed
}

/// Writes the links of the first item at the front of `out`, packed, if they all fit, and counts
/// their bytes in `needed`. Returns the number of the item's kind, or of the refusal.
pub fn put_links(bytes: &[u8], out: &mut [u8], needed: &mut usize) -> i32
    ensures { (result, needed.new, out.new) ≡ links_answer bytes.now out.old }
{
    *needed = 0;
    match first_item(bytes) {
        Ok(item) => {
            *needed = pack(item, &mut [0; 0]);
            if *needed <= out.len() {
                pack(item, out);
            }
            kind_code(kind_of_front(item))
        }
        Err(refusal) => refusal_code(&refusal),
    }
}
