//! Where the file of version 1 is in a CAR file.

ghost use Rattle.abi_calls.specs.Spans.{IsSpanAnswer};

use crate::code::fault_code;
use files_car::file_span;

/// Writes where the file of version 1 begins and ends, as the front of the CAR file's bytes says.
/// In a file of version 1 it is the whole. Returns 0, or the number of why the bytes do not tell.
pub fn put_span(bytes: &[u8], places: &mut [u64; 2]) -> i32
    ensures { IsSpanAnswer bytes.now places.old places.new result }
{
    match file_span(bytes) {
        Ok(Some(span)) => {
            *places = [span.begin, span.begin + span.length];
            0
        }
        Ok(None) => {
            *places = [0, u64::MAX];
            0
        }
        Err(fault) => fault_code(&fault),
    }
}
