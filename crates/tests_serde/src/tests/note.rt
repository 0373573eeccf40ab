//! A type that derives. The example in the README quotes lines of this test.

use super::is_refused;
use serde::{Deserialize, Serialize};
use std::test::Fail;
use tests_shared::agree;
use types_serde::{from_slice, to_vec};

/// A year, and what was said in it.
#[derive(Drop, Serialize, Deserialize)]
pub struct Note {
    pub year: u16,
    pub text: String,
}

const BLOCK: &[u8] = b"\xa2\x64text\x62hi\x64year\x17";

#[test]
fn a_note_goes_both_ways(rt: HostRuntime) -> Result<(), Fail> {
    let alloc = rt.alloc();
    let text = String::from_str(alloc, "hi")?;
    let block = to_vec(alloc, &Note { year: 23, text })?;
    agree(block.as_slice(), BLOCK)?;

    let note: Note = from_slice(alloc, &block)?;
    agree((note.year, note.text.as_str()), (23, "hi"))?;

    // 18 17 spells 23 in two bytes, where one is enough.
    let refused = b"\xa2\x64text\x62hi\x64year\x18\x17";
    let wanted = r#"NoBlock(NonMinimal { name: "u64", found: 24 })"#;
    is_refused::<Note>(alloc, refused, wanted)
}
