//! Writing a CID as text.

ghost use Rattle.std.specs.Prelude.{◌≡◌};
ghost use Rattle.text_cid.specs.Alphabets.{AreBytes};
ghost use Rattle.text_cid.specs.Texts.{cid_text, IsTextOf};

use crate::base58::push_58;
use crate::groups::{LONGEST_WRITTEN, push_32};
use arrayvec::ArrayVec;
use ipld_tree::Cid;

/// The characters of a CID, all of them ASCII.
pub type CidText = ArrayVec<u8, LONGEST_WRITTEN>;

/// Does nothing. The contract says that bytes are below 256, for the proof.
fn are_bytes(bytes: &[u8])
    ensures { AreBytes bytes.now }
{
    let _bytes = bytes;
}

/// Returns the text of the CID: version 1 in base32 with lower-case letters after `b`, and version
/// 0 in base58btc.
pub fn cid_text(cid: &Cid) -> CidText
    ensures text { result.items ≡ cid_text cid.now }
    ensures told { IsTextOf result.items cid.now }
{
    let mut bytes = ArrayVec::new();
    cid.write_bytes(&mut bytes);
    are_bytes(&bytes);
    let mut text = ArrayVec::new();
    if cid.version() == 0 {
        push_58(&bytes, &mut text);
    } else {
        text.push(b'b');
        push_32(b"abcdefghijklmnopqrstuvwxyz234567", &bytes, &mut text);
    }
    text
}
