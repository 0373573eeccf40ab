//! The name of a block.

ghost use Rattle.std.specs.Prelude.{◌≡◌};
ghost use Rattle.ipld_links.specs.Names.{block_name};

use ipld_tree::Cid;
use sha2::{Digest, Sha256};

/// The code of the DAG-CBOR format (multicodec table).
pub const DAG_CBOR: u64 = 0x71;

/// The code of the DAG-PB format (multicodec table).
pub const DAG_PB: u64 = 0x70;

/// The code of raw bytes (multicodec table).
pub const RAW: u64 = 0x55;

/// The code of the hash function SHA-256 (multicodec table).
pub const SHA2_256: u64 = 0x12;

/// The code of the identity: the digest is the bytes themselves (multicodec table).
pub const IDENTITY: u64 = 0x00;

/// Returns the name of a block of DAG-CBOR with these bytes: a CID of version 1, by its SHA-256.
pub fn name_of_block(bytes: &[u8]) -> Cid
    ensures { result ≡ block_name bytes.now }
{
    let digest = Sha256::digest(bytes);
    Cid::new_v1(DAG_CBOR, SHA2_256, &digest).unwrap()
}
