//! The header at the front of a CAR file's bytes: its roots, packed, and where the first section
//! begins.

ghost use Rattle.std.specs.Prelude.{◌≡◌};
ghost use Rattle.abi_calls.specs.Codes.{header_code};
ghost use Rattle.abi_calls.specs.Headers.{IsHeaderAnswer};

use crate::code::{fault_code, refusal_code};
use crate::links::put_links;
use files_car::{CarError, judge_header};

/// Returns the number of the cause for which there is no header.
pub(crate) fn header_code<E>(fault: &CarError<E>) -> i32
    ensures { result ≡ header_code fault.now }
{
    match fault {
        CarError::NoBlock(refusal) => refusal_code(refusal),
        _ => fault_code(fault),
    }
}

/// Writes the roots of the header at the front into `out`, packed, if they all fit, and where the
/// header ends. Returns 0, or the number of why there is no header.
pub fn put_header(bytes: &[u8], out: &mut [u8], needed: &mut usize, following: &mut usize) -> i32
    ensures { IsHeaderAnswer bytes.now out.old out.new needed.new following.old following.new result }
{
    *needed = 0;
    match judge_header(bytes) {
        Ok((block, rest)) => {
            put_links(block, out, needed);
            *following = bytes.len() - rest.len();
            0
        }
        Err(fault) => header_code(&fault),
    }
}
