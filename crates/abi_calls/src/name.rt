//! The name of a block, which is its CID.

ghost use Rattle.std.specs.Prelude.{◌≡◌};
ghost use Rattle.ipld_tree.specs.Cid.{cid_bytes};
ghost use Rattle.ipld_links.specs.Names.{block_name};

use arrayvec::ArrayVec;
use ipld_links::name_of_block;

/// Returns the binary form of the block's name.
#[tactic(auto, using(crate::proofs::Naming::name_length))]
pub fn name_of(bytes: &[u8]) -> [u8; 36]
    ensures { result ≡ cid_bytes (block_name bytes.now) }
{
    let mut form = ArrayVec::new();
    name_of_block(bytes).write_bytes(&mut form);
    let mut name = [0; 36];
    name.copy_from_slice(&form);
    name
}
