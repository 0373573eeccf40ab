//! The text of a CID, and the CID of a text, written into the caller's memory.

ghost use Rattle.std.specs.Prelude.{◌≡◌};
ghost use Rattle.abi_calls.specs.Codes.{text_fault_code};
ghost use Rattle.abi_calls.specs.CidTexts.{IsPutText, IsCidTextAnswer, IsCidFromTextAnswer};

use crate::code::{NO_CID, NO_ROOM};
use arrayvec::ArrayVec;
use ipld_tree::Cid;
use text_cid::{CidTextError, cid_from_text, cid_text};

/// Returns the number of a fault in the text of a CID.
fn text_fault_code(fault: &CidTextError) -> i32
    ensures { result ≡ text_fault_code fault.now }
{
    match fault {
        CidTextError::InvalidCid(_) => NO_CID,
        CidTextError::UnknownBase => -28,
        CidTextError::TooLong => -29,
        CidTextError::InvalidCharacter => -30,
        CidTextError::InvalidLength => -31,
        CidTextError::TrailingBits => -32,
        CidTextError::LeadingZero => -33,
        CidTextError::InvalidVersion => -34,
    }
}

/// Writes the bytes at the front of `out` if they fit, and returns `done`, and else -21. `needed`
/// is their count.
pub fn put_front(done: i32, bytes: &[u8], out: &mut [u8], needed: &mut usize) -> i32
    ensures { IsPutText done bytes.now out.old out.new needed.new result }
{
    *needed = bytes.len();
    if out.len() < bytes.len() {
        return NO_ROOM;
    }
    out[..bytes.len()].copy_from_slice(bytes);
    done
}

/// Writes the text of the CID that the bytes are, or returns -26 if they are not a CID.
pub fn put_cid_text(bytes: &[u8], out: &mut [u8], needed: &mut usize) -> i32
    ensures { IsCidTextAnswer bytes.now out.old out.new needed.new result }
{
    *needed = 0;
    match Cid::try_from(bytes) {
        Ok(cid) => put_front(0, &cid_text(&cid), out, needed),
        Err(_) => NO_CID,
    }
}

/// Writes the binary form of the CID whose text this is, or returns the number of the fault in it.
pub fn put_cid_of_text(text: &[u8], out: &mut [u8], needed: &mut usize) -> i32
    ensures { IsCidFromTextAnswer text.now out.old out.new needed.new result }
{
    *needed = 0;
    match cid_from_text(text) {
        Ok(cid) => {
            let mut form = ArrayVec::new();
            cid.write_bytes(&mut form);
            put_front(0, &form, out, needed)
        }
        Err(fault) => text_fault_code(&fault),
    }
}
