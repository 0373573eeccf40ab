//! The note that is made of a schema.

use std::test::Fail;
use tests_shared_reads::note_goes_both_ways;
use types_album::Note;

#[test]
fn a_note_goes_both_ways(rt: HostRuntime) -> Result<(), Fail> {
    let text = String::from_str(rt.alloc(), "hi")?;
    note_goes_both_ways(rt.alloc(), &Note { year: 23, text })
}
