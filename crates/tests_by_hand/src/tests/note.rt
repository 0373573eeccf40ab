//! The note of docs/TYPES.md, whose code is written by hand.

use std::test::Fail;
use tests_shared_reads::note_goes_both_ways;
use types_by_hand::Note;

#[test]
fn a_note_goes_both_ways(rt: HostRuntime) -> Result<(), Fail> {
    let text = String::from_str(rt.alloc(), "hi")?;
    note_goes_both_ways(rt.alloc(), &Note { year: 23, text })
}
